//! Copies.

ghost use Rattle.std.specs.Prelude.{◌≡◌, IfOk, OnErr, OnOk, false, true};
ghost use Rattle.board_state.specs.Steps.{is_filled_by};
ghost use Rattle.run_journal.specs.declared.entry.StepKind.TheVariants as step;
ghost use Rattle.task_core.specs.Boards.{HasMade, activity_of, copied_as, step_by};

use crate::answers::Copied;
use crate::board::Board;
use board_terms::Claim;
use run_journal::{Entry, StepKind};
use std::alloc::AllocError;

impl Board {
    /// Moves the next 4,096 elements of the part that a claimed operation wants, or all that are left. Where none is
    /// left behind them it is out, and its segment may be run; gone exactly where it isn't being filled under that
    /// claim.
    pub fn copy(&mut self, claim: Claim) -> Result<Copied, AllocError>
        ensures answer { IfOk result (λ c. c ≡ copied_as (is_filled_by claim (activity_of self.old claim.op)) (activity_of self.new claim.op)) }
        ensures made { OnOk result (is_filled_by claim (activity_of self.old claim.op) ≡ true
            → HasMade self.old (step_by step.Copy claim.op claim.seat) self.new) }
        ensures kept { OnOk result (is_filled_by claim (activity_of self.old claim.op) ≡ false → self.new ≡ self.old) }
        ensures unchanged { OnErr result (self.new ≡ self.old) }
    {
        if !self.state.is_filled_by(&claim) {
            return Ok(Copied::Gone);
        }
        let copied = self.state.copy(&self.job.code, claim.op)?;
        self.journal.push_reserved(Entry {
            kind: StepKind::Copy,
            op: claim.op,
            seat: claim.seat,
        });
        self.owed -= 1;
        match copied {
            Some(before) => Ok(Copied::Start(before)),
            None => Ok(Copied::More),
        }
    }
}
