//! Runs that are given back.

ghost use Rattle.std.specs.Prelude.{◌≡◌, IfErr, IfOk, OnErr, OnOk, Some};
ghost use Rattle.board_state.specs.Steps.{before_by};
ghost use Rattle.board_state.specs.Kept.{IsKept};
ghost use Rattle.run_journal.specs.declared.entry.StepKind.TheVariants as step;
ghost use Rattle.task_core.specs.Boards.{HasMade, activity_of, step_by};
ghost use Rattle.task_core.specs.Givens.{IsAnswer, IsJudged, IsTaken};

use crate::answers::Given;
use crate::board::Board;
use crate::finishing::{finished, make_room, push_image};
use board_terms::Claim;
use frame_equality::is_same_before;
use machine_terms::{Before, Ran};
use plain_values::Shared;
use run_journal::{Entry, StepKind};
use std::alloc::{AllocError, Global};

/// Whose a run is: the claim's own, or a stranger's, with what is kept for the claim.
#[derive(Drop)]
pub enum Judged {
    Own,
    Strange(Option<Shared<Before>>),
}

impl Board {
    /// Gives a run back under a claim. It is taken exactly where it was made from what the claim's segment is to be run
    /// from; nothing is kept for a claim that isn't out. Any other run comes back.
    pub fn give(&mut self, claim: Claim, ran: Ran) -> Result<Given, (AllocError, Ran)>
        ensures answer { IfOk result (IsAnswer (before_by claim (activity_of self.old claim.op)) ran) }
        ensures made { IfOk result (λ g. IsTaken g → HasMade self.old (step_by step.Give claim.op claim.seat) self.new) }
        ensures kept { IfOk result (λ g. (IsTaken g → ⊥) → self.new ≡ self.old) }
        ensures unchanged { OnErr result (self.new ≡ self.old) }
        ensures handed { IfErr result (λ e. e.1 ≡ ran) }
    {
        match self.judge(&claim, &ran) {
            Ok(Judged::Own) => {
                self.take(claim, ran)?;
                Ok(Given::Taken)
            }
            Ok(Judged::Strange(kept)) => Ok(Given::Stranger(ran, kept)),
            Err(failed) => Err((failed, ran)),
        }
    }

    /// Whether a run was made from what is kept for a claim.
    fn judge(&self, claim: &Claim, ran: &Ran) -> Result<Judged, AllocError>
        ensures judged { IfOk result (IsJudged (before_by claim.now (activity_of self.now claim.now.op)) ran.now) }
        ensures kept { IsKept self.now.state }
    {
        match self.state.before_by(claim) {
            Some(kept) => judge_kept(*self.journal.allocator(), kept, ran),
            None => Ok(Judged::Strange(None)),
        }
    }

    /// Takes the run of an operation that is out. Memory is taken before anything is changed.
    fn take(&mut self, claim: Claim, ran: Ran) -> Result<(), (AllocError, Ran)>
        requires own { before_by claim (activity_of self.old claim.op) ≡ Some ran }
        requires kept { IsKept self.old.state }
        ensures made { OnOk result (HasMade self.old (step_by step.Give claim.op claim.seat) self.new) }
        ensures unchanged { OnErr result (self.new ≡ self.old) }
        ensures handed { IfErr result (λ e. e.1 ≡ ran) }
    {
        let alloc = *self.journal.allocator();
        let made = make_room(
            alloc,
            self.job.code.get(),
            claim.op,
            self.said,
            &mut self.text,
            &mut self.images,
            ran.after(),
        );
        let room = match made {
            Ok(room) => room,
            Err(failed) => return Err((failed, ran)),
        };
        self.state
            .give(claim.op, self.job.code.get(), self.job.turns, ran)?;
        self.journal.push_reserved(Entry {
            kind: StepKind::Give,
            op: claim.op,
            seat: claim.seat,
        });
        self.owed -= 1;
        self.said = room.said;
        push_image(&mut self.images, room.image);
        self.outcome = finished(alloc, &self.state, &mut self.text, &mut self.images);
        Ok(())
    }
}

/// Whether a run was made from this.
fn judge_kept(alloc: Global, kept: &Shared<Before>, ran: &Ran) -> Result<Judged, AllocError>
    ensures { IfOk result (IsJudged (Some kept.now) ran.now) }
{
    if is_same_before(alloc, kept.get(), ran.before().get())? {
        Ok(Judged::Own)
    } else {
        Ok(Judged::Strange(Some(kept.share()?)))
    }
}
