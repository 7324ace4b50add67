//! Claims, and claims that are taken back.

ghost use Rattle.std.specs.Prelude.{◌≡◌, ◌↔◌, ◌+◌, ◌||◌, IfNone, IfOk, IfSome, None, OnErr, ℕ, false, suc, true};
ghost use Rattle.board_state.specs.Owed.{copies_left};
ghost use Rattle.board_state.specs.Kept.{IsKept};
ghost use Rattle.board_state.specs.Steps.{is_filled_by, is_out_by};
ghost use Rattle.board_terms.specs.Claims.{claim_on};
ghost use Rattle.board_terms.specs.Stages.{may_be_claimed};
ghost use Rattle.board_terms.specs.States.{operation_at};
ghost use Rattle.dependence_graph.specs.Issues.{IsFirstReady};
ghost use Rattle.run_journal.specs.declared.entry.StepKind.TheVariants as step;
ghost use Rattle.task_core.specs.Boards.{HasMade, activity_of, step_by};

use crate::board::Board;
use board_state::{BoardState, owed_for};
use board_terms::Claim;
use physical_instances::Fill;
use region_tree::OpNumber;
use run_journal::{Entry, StepKind};
use std::alloc::AllocError;

impl Board {
    /// A seat claims the least operation that is ready. It is none exactly where none is ready.
    pub fn claim(&mut self, seat: u16) -> Result<Option<Claim>, AllocError>
        ensures claim { IfOk result (λ o. IfSome o (λ c. c ≡ claim_on self.old.state c.op.0 seat)) }
        ensures least { IfOk result (λ o. IfSome o (λ c. IsFirstReady self.old.state.waits.knots c.op.0)) }
        ensures made { IfOk result (λ o. IfSome o (λ c. HasMade self.old (step_by step.Claim c.op seat) self.new)) }
        ensures none { IfOk result (λ o. (o ≡ None) ↔ ((k : ℕ) → may_be_claimed self.old.state k ≡ false)) }
        ensures kept { IfOk result (λ o. IfNone o (self.new ≡ self.old)) }
        ensures unchanged { OnErr result (self.new ≡ self.old) }
    {
        match self.state.first_ready() {
            Some(op) => self.claim_at(op, seat),
            None => Ok(None),
        }
    }

    /// A seat claims an operation. It is none exactly where that one isn't ready.
    pub fn claim_at(&mut self, op: OpNumber, seat: u16) -> Result<Option<Claim>, AllocError>
        ensures claim { IfOk result (λ o. IfSome o (λ c. c ≡ claim_on self.old.state op.0 seat)) }
        ensures made { IfOk result (λ o. IfSome o (λ _. HasMade self.old (step_by step.Claim op seat) self.new)) }
        ensures none { IfOk result (λ o. (o ≡ None) ↔ (may_be_claimed self.old.state op.0 ≡ false)) }
        ensures kept { IfOk result (λ o. IfNone o (self.new ≡ self.old)) }
        ensures unchanged { OnErr result (self.new ≡ self.old) }
    {
        if !self.state.is_ready(op) {
            return Ok(None);
        }
        let fill = self.state.fill_for(op)?;
        let owed = owed_with(self.owed, &fill)?;
        self.journal.reserve(owed)?;
        if self.state.turns() == u64::MAX {
            return Err(AllocError);
        }
        let claim = self.state.claim(op, seat, fill);
        self.journal.push_reserved(Entry {
            kind: StepKind::Claim,
            op,
            seat,
        });
        self.owed = owed - 1;
        Ok(Some(claim))
    }

    /// A claim is taken back: the operation is where it was before. False exactly where it is neither being filled nor
    /// out under that claim.
    pub fn take_back(&mut self, claim: Claim) -> bool
        ensures answer { result ≡ (is_filled_by claim (activity_of self.old claim.op)
            || is_out_by claim (activity_of self.old claim.op)) }
        ensures made { result ≡ true → HasMade self.old (step_by step.Back claim.op claim.seat) self.new }
        ensures kept { result ≡ false → self.new ≡ self.old }
    {
        if !is_held_by(&self.state, &claim) {
            return false;
        }
        let owed = self.state.owed_at(claim.op);
        self.state.take_back(claim.op);
        self.journal.push_reserved(Entry {
            kind: StepKind::Back,
            op: claim.op,
            seat: claim.seat,
        });
        self.owed -= owed;
        true
    }
}

/// Whether an operation is being filled or out under a claim.
fn is_held_by(state: &BoardState, claim: &Claim) -> bool
    ensures held { result ≡ (is_filled_by claim.now (operation_at state.now claim.now.op.0).activity
        || is_out_by claim.now (operation_at state.now claim.now.op.0).activity) }
    ensures kept { IsKept state.now }
{
    state.is_filled_by(claim) || state.is_out_by(claim)
}

/// How many steps are owed with a new claim, its own one too. More than a number counts count as a want of memory.
fn owed_with(owed: usize, fill: &Option<Fill>) -> Result<usize, AllocError>
    ensures { IfOk result (λ n. n ≡ owed + suc (suc (copies_left fill.now))) }
{
    let more = owed_for(fill);
    match owed.checked_add(more) {
        Some(sum) => sum.checked_add(1).ok_or(AllocError),
        None => Err(AllocError),
    }
}
