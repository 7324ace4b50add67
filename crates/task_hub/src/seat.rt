//! Seats.

ghost use Rattle.std.specs.Prelude.{◌≡◌, ◌+◌, ◌<◌, ◌-◌, min};
ghost use Rattle.task_core.specs.Desks.{new_seat, stepped, with_claim, without_claim};
ghost use Rattle.task_hub.specs.Seats.{as_told};

use std::marker::Model;
use std::sync::ledger::{Book, Ledger, Share};

/// A worker's place at a hub, with one part of each of the hub's ledgers. One counts the seat's steps, the other one
/// whether it was told that all is over.
#[derive(Drop)]
pub struct Seat<L: Ledger, O: Ledger> {
    number: u16,
    pub(crate) steps: Share<L>,
    pub(crate) overs: Share<O>,
    told: bool,
    claims: u64,
}

impl<L: Ledger, O: Ledger> Model for Seat<L, O> {
    ghost use Rattle.std.specs.Prelude.{◌≡◌, if◌then◌else◌};
    ghost use Rattle.task_hub.specs.Seats.{Placed};

    ghost Value = { Placed };

    ghost view = { λ s. record {
      number = s.number;
      seated = record { steps = s.steps.amount; overs = s.overs.amount; claims = s.claims };
    } };

    ghost invariant = { λ s. (s.steps.parts ≡ 1) × ((s.overs.parts ≡ 1) × (s.overs.amount ≡ (if s.told then 1 else 0))) };
}

impl<L: Ledger, O: Ledger> Seat<L, O> {
    /// A seat with nothing in hand, by one part of each ledger.
    pub(crate) fn new(number: u16, steps: Share<L>, overs: Share<O>) -> Seat<L, O>
        requires steps { (steps.parts ≡ 1) × (steps.amount ≡ 0) }
        requires overs { (overs.parts ≡ 1) × (overs.amount ≡ 0) }
        ensures { result ≡ record { number = number; seated = new_seat } }
    {
        Seat {
            number,
            steps,
            overs,
            told: false,
            claims: 0,
        }
    }

    /// Its number, which never changes.
    pub fn number(&self) -> u16
        ensures { result ≡ self.now.number }
    {
        self.number
    }

    /// Counts a step.
    pub(crate) fn step(&mut self, book: &mut Book<L>)
        ensures seat { self.new ≡ record self.old { seated = stepped self.old.seated } }
        ensures total { book.new.total ≡ book.old.total + 1 }
    {
        book.add(&mut self.steps, 1);
    }

    /// Counts a claim that it has in hand now.
    pub(crate) fn hold(&mut self)
        ensures { self.new ≡ record self.old { seated = with_claim self.old.seated } }
    {
        self.claims = self.claims.saturating_add(1);
    }

    /// Counts a claim that it has in hand no longer.
    pub(crate) fn let_go(&mut self)
        ensures { self.new ≡ record self.old { seated = without_claim self.old.seated } }
    {
        self.claims = self.claims.saturating_sub(1);
    }

    /// Counts the first time that it is told that all is over.
    pub(crate) fn tell(&mut self, book: &mut Book<O>)
        ensures { self.new ≡ record self.old { seated = as_told self.old.seated } }
    {
        if !self.told {
            book.add(&mut self.overs, 1);
            self.told = true;
        }
    }

    /// Its parts go to others.
    pub(crate) fn leave(self, steps: &mut Share<L>, overs: &mut Share<O>)
        ensures steps { (steps.new.parts ≡ steps.old.parts + 1) × (steps.new.amount ≡ steps.old.amount + self.seated.steps) }
        ensures overs { (overs.new.parts ≡ overs.old.parts + 1) × (overs.new.amount ≡ overs.old.amount + self.seated.overs) }
    {
        let Seat {
            number: _,
            steps: own_steps,
            overs: own_overs,
            told: _,
            claims: _,
        } = self;
        steps.merge(own_steps);
        overs.merge(own_overs);
    }
}
