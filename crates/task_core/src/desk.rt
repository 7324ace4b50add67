//! Desks, where seats come for work.

ghost use Rattle.std.specs.Prelude.{◌≡◌, IfErr, IfOk, OnErr};
ghost use Rattle.task_core.specs.Desks.{Seated, after_back, after_copy, after_give, after_work};

use crate::answers::{Copied, Given};
use board_terms::Claim;
use machine_terms::Ran;
use std::alloc::AllocError;
use std::sync::Wait;

/// What a seat is answered that comes for work: a claim, or that all is over.
#[derive(Clone, Copy, Debug, PartialEq, Eq)]
pub enum Work {
    Run(Claim),
    Over,
}

/// Where seats come for work and bring their runs back to, from any thread. Of a seat three numbers are seen: how many steps
/// it made, how often it was told that all is over, which is at most once, and how many claims it has in hand.
pub trait Desk: Sync {
    type Seat;

    ghost seated: { Self.Seat → Seated };

    /// A claim for the seat, or that all is over. It may wait until there is one or the other.
    fn claim<R: Wait>(&self, rt: &R, seat: &mut Self::Seat) -> Result<Work, AllocError>
        ensures work { IfOk result (λ w. seated seat.new ≡ after_work w (seated seat.old)) }
        ensures unchanged { OnErr result (seated seat.new ≡ seated seat.old) };

    /// Moves the next elements of the part that a claim is filled with; a step where the claim is being filled.
    fn copy<R: Wait>(
        &self,
        rt: &R,
        seat: &mut Self::Seat,
        claim: Claim,
    ) -> Result<Copied, AllocError>
        ensures copied { IfOk result (λ c. seated seat.new ≡ after_copy c (seated seat.old)) }
        ensures unchanged { OnErr result (seated seat.new ≡ seated seat.old) };

    /// Gives a run back; a step where it is taken. A refusal hands the run back.
    fn give<R: Wait>(
        &self,
        rt: &R,
        seat: &mut Self::Seat,
        claim: Claim,
        ran: Ran,
    ) -> Result<Given, (AllocError, Ran)>
        ensures given { IfOk result (λ g. seated seat.new ≡ after_give g (seated seat.old)) }
        ensures unchanged { OnErr result (seated seat.new ≡ seated seat.old) }
        ensures handed { IfErr result (λ e. e.1 ≡ ran) };

    /// Takes a claim back; a step where it was being filled or out. The seat has it in hand no longer, whatever is
    /// answered.
    fn take_back<R: Wait>(&self, rt: &R, seat: &mut Self::Seat, claim: Claim) -> bool
        ensures { seated seat.new ≡ after_back result (seated seat.old) };
}
