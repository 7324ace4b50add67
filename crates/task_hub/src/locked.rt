//! What a hub's lock keeps.

ghost use Rattle.std.specs.Prelude.{◌≡◌, ◌↔◌, ◌||◌, IfErr, IfOk, None, OnErr, OnOk, Ok, Some, false, true};
ghost use Rattle.board_state.specs.Steps.{before_by, is_filled_by, is_out_by};
ghost use Rattle.board_terms.specs.Claims.{claim_on};
ghost use Rattle.dependence_graph.specs.Issues.{IsFirstReady};
ghost use Rattle.run_journal.specs.declared.entry.StepKind.TheVariants as step;
ghost use Rattle.task_core.specs.Boards.{HasMade, activity_of, copied_as, step_by};
ghost use Rattle.task_core.specs.Desks.{after_back, after_copy, after_give};
ghost use Rattle.task_core.specs.Givens.{IsAnswer, IsTaken};
ghost use Rattle.task_core.specs.declared.desk.Work.TheVariants as work;
ghost use Rattle.task_hub.specs.Answers.{HasResult, IfRun, IsIdle, after_claim, is_run};

use crate::seat::Seat;
use machine_terms::Ran;
use std::alloc::AllocError;
use std::marker::Model;
use std::sync::ledger::{Book, Ledger, Share};
use task_core::{Board, Claim, Copied, Given, Work};

/// A board with the books of two ledgers: as many entries stand in its journal as the seats made steps, and it has a result
/// where any seat was told that all is over. Contracts see the board. Beside the books is what the seats left of the
/// ledgers' parts, which is none.
#[derive(Drop)]
pub struct Locked<L: Ledger, O: Ledger> {
    pub(crate) board: Board,
    pub(crate) steps: Book<L>,
    pub(crate) overs: Book<O>,
    pub(crate) step_rest: Share<L>,
    pub(crate) over_rest: Share<O>,
}

impl<L: Ledger, O: Ledger> Model for Locked<L, O> {
    ghost use Rattle.std.specs.Prelude.{◌≡◌};
    ghost use Rattle.task_core.specs.Boards.{Standing};
    ghost use Rattle.task_hub.specs.Books.{IsBooked};

    ghost Value = { Standing };

    ghost view = { λ l. l.board };

    ghost invariant = { λ l. IsBooked l.board l.steps.total l.overs.total
        × ((l.step_rest.parts ≡ 0) × (l.step_rest.amount ≡ 0))
        × ((l.over_rest.parts ≡ 0) × (l.over_rest.amount ≡ 0)) };
}

impl<L: Ledger, O: Ledger> Locked<L, O> {
    /// The board.
    pub fn board(&self) -> &Board
        ensures { result.now ≡ self.now }
    {
        &self.board
    }

    /// What a seat is to do: to run the least operation that is ready, which it has claimed then, or to end, exactly where
    /// there is a result. Nothing exactly where nothing is ready and there is no result.
    pub fn claim(&mut self, seat: &mut Seat<L, O>) -> Result<Option<Work>, AllocError>
        ensures claim { IfOk result (λ w. IfRun w (λ c. c ≡ claim_on self.old.state c.op.0 seat.old.number)) }
        ensures least { IfOk result (λ w. IfRun w (λ c. IsFirstReady self.old.state.waits.knots c.op.0)) }
        ensures made { IfOk result (λ w. IfRun w (λ c. HasMade self.old (step_by step.Claim c.op seat.old.number) self.new)) }
        ensures over { IfOk result (λ w. (w ≡ Some work.Over) ↔ HasResult self.old) }
        ensures none { IfOk result (λ w. (w ≡ None) ↔ IsIdle self.old) }
        ensures kept { IfOk result (λ w. is_run w ≡ false → self.new ≡ self.old) }
        ensures seat { IfOk result (λ w. seat.new ≡ record seat.old { seated = after_claim w seat.old.seated }) }
        ensures unchanged { OnErr result ((self.new ≡ self.old) × (seat.new ≡ seat.old)) }
    {
        if self.board.result().is_some() {
            seat.tell(&mut self.overs);
            return Ok(Some(Work::Over));
        }
        let Some(claim) = self.board.claim(seat.number())? else {
            return Ok(None);
        };
        seat.step(&mut self.steps);
        seat.hold();
        Ok(Some(Work::Run(claim)))
    }

    /// What the board's `copy` does and answers.
    pub fn copy(&mut self, seat: &mut Seat<L, O>, claim: Claim) -> Result<Copied, AllocError>
        ensures answer { IfOk result (λ c. c ≡ copied_as (is_filled_by claim (activity_of self.old claim.op)) (activity_of self.new claim.op)) }
        ensures made { OnOk result (is_filled_by claim (activity_of self.old claim.op) ≡ true
            → HasMade self.old (step_by step.Copy claim.op claim.seat) self.new) }
        ensures kept { OnOk result (is_filled_by claim (activity_of self.old claim.op) ≡ false → self.new ≡ self.old) }
        ensures seat { IfOk result (λ c. seat.new ≡ record seat.old { seated = after_copy c seat.old.seated }) }
        ensures unchanged { OnErr result ((self.new ≡ self.old) × (seat.new ≡ seat.old)) }
    {
        let copied = self.board.copy(claim)?;
        if !matches!(copied, Copied::Gone) {
            seat.step(&mut self.steps);
        }
        Ok(copied)
    }

    /// What the board's `give` does and answers.
    pub fn give(
        &mut self,
        seat: &mut Seat<L, O>,
        claim: Claim,
        ran: Ran,
    ) -> Result<Given, (AllocError, Ran)>
        ensures answer { IfOk result (IsAnswer (before_by claim (activity_of self.old claim.op)) ran) }
        ensures made { IfOk result (λ g. IsTaken g → HasMade self.old (step_by step.Give claim.op claim.seat) self.new) }
        ensures kept { IfOk result (λ g. (IsTaken g → ⊥) → self.new ≡ self.old) }
        ensures seat { IfOk result (λ g. seat.new ≡ record seat.old { seated = after_give g seat.old.seated }) }
        ensures unchanged { OnErr result ((self.new ≡ self.old) × (seat.new ≡ seat.old)) }
        ensures handed { IfErr result (λ e. e.1 ≡ ran) }
    {
        let given = self.board.give(claim, ran)?;
        if matches!(given, Given::Taken) {
            seat.step(&mut self.steps);
            seat.let_go();
        }
        Ok(given)
    }

    /// What the board's `take_back` does and answers.
    pub fn take_back(&mut self, seat: &mut Seat<L, O>, claim: Claim) -> bool
        ensures answer { result ≡ (is_filled_by claim (activity_of self.old claim.op)
            || is_out_by claim (activity_of self.old claim.op)) }
        ensures made { result ≡ true → HasMade self.old (step_by step.Back claim.op claim.seat) self.new }
        ensures kept { result ≡ false → self.new ≡ self.old }
        ensures seat { seat.new ≡ record seat.old { seated = after_back result seat.old.seated } }
    {
        let taken = self.board.take_back(claim);
        if taken {
            seat.step(&mut self.steps);
        }
        seat.let_go();
        taken
    }
}
