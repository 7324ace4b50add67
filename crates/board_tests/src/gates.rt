//! A worker at a desk in memory that is refused memory at a call of one's choice; and a gate for two, by one thread and by
//! two.

ghost use Rattle.std.specs.Prelude.{◌≡◌, ◌≢◌};

use machine_terms::Ran;
use region_tree::OpNumber;
use std::alloc::{AllocError, Global};
use std::sync::Wait;
use std::test::Fail;
use std::thread::join;
use task_core::{Claim, Copied, Desk, Given, Work};
use worker_gate::{Gate, OpenGate, PairGate, work};

/// A desk with so many claims, each of which is gone at its second copy. A seat's call of this number is refused, where
/// claims and copies are counted from 1.
#[derive(Drop)]
struct Script {
    claims: u64,
    refused: u64,
}

/// The seat of a script.
#[derive(Drop)]
struct Place {
    calls: u64,
    taken: u64,
    backs: u64,
    steps: u64,
    overs: u64,
    claims: u64,
}

impl Place {
    fn new() -> Place
        ensures overs { result.overs ≡ 0 }
        ensures claims { result.claims ≡ 0 }
    {
        Place {
            calls: 0,
            taken: 0,
            backs: 0,
            steps: 0,
            overs: 0,
            claims: 0,
        }
    }

    /// Counts a call; whether it is refused.
    fn calls(&mut self, refused: u64) -> bool
        ensures steps { self.new.steps ≡ self.old.steps }
        ensures overs { self.new.overs ≡ self.old.overs }
        ensures claims { self.new.claims ≡ self.old.claims }
    {
        self.calls = self.calls.saturating_add(1);
        self.calls == refused
    }
}

impl Desk for Script {
    type Seat = Place;

    ghost seated = { λ s. record { steps = s.steps; overs = s.overs; claims = s.claims } };

    fn claim<R: Wait>(&self, _rt: &R, seat: &mut Place) -> Result<Work, AllocError> {
        if seat.calls(self.refused) {
            return Err(AllocError);
        }
        if seat.taken >= self.claims {
            seat.overs = 1;
            return Ok(Work::Over);
        }
        seat.steps = seat.steps.checked_add(1).ok_or(AllocError)?;
        seat.claims = seat.claims.saturating_add(1);
        seat.taken += 1;
        Ok(Work::Run(Claim {
            op: OpNumber(seat.taken),
            seat: 0,
            turn: seat.calls,
        }))
    }

    fn copy<R: Wait>(&self, _rt: &R, seat: &mut Place, claim: Claim) -> Result<Copied, AllocError> {
        if seat.calls(self.refused) {
            return Err(AllocError);
        }
        if seat.calls > claim.turn.saturating_add(1) {
            return Ok(Copied::Gone);
        }
        seat.steps = seat.steps.checked_add(1).ok_or(AllocError)?;
        Ok(Copied::More)
    }

    fn give<R: Wait>(
        &self,
        _rt: &R,
        _seat: &mut Place,
        _claim: Claim,
        ran: Ran,
    ) -> Result<Given, (AllocError, Ran)> {
        Ok(Given::Stranger(ran, None))
    }

    fn take_back<R: Wait>(&self, _rt: &R, seat: &mut Place, _claim: Claim) -> bool {
        seat.backs = seat.backs.saturating_add(1);
        seat.claims = seat.claims.saturating_sub(1);
        false
    }
}

/// The call that is refused, whether the work ends, and how many claims are taken back.
static REFUSALS: [(u64, bool, u64); 8] = [
    (1, false, 0),
    (2, false, 1),
    (3, false, 1),
    (4, false, 1),
    (5, false, 2),
    (6, false, 2),
    (7, false, 2),
    (8, true, 2),
];

/// Whether the work at such a desk ends, how often the seat was answered that all is over, how many claims it takes back, and
/// how many it has in hand then.
fn worked<R: Wait>(rt: &R, alloc: Global, refused: u64) -> (bool, u64, u64, u64) {
    let desk = Script { claims: 2, refused };
    let mut seat = Place::new();
    let ends = work(rt, alloc, &desk, &mut seat, &OpenGate).is_ok();
    (ends, seat.overs, seat.backs, seat.claims)
}

#[test]
fn claims_are_taken_back(rt: HostRuntime) -> Result<(), Fail> {
    for (refused, ends, backs) in &REFUSALS {
        let found = worked(&rt, rt.alloc(), *refused);
        let wanted = (*ends, u64::from(*ends), *backs, 0);
        assert_eq!(rt; found, wanted, "refused at {refused}");
    }
    Ok(())
}

#[test]
fn one_thread_meets_nobody(rt: HostRuntime) {
    for (one, other) in [(1, 2), (2, 1)] {
        let gate = PairGate::new(OpNumber(1), OpNumber(2), 3);
        for op in [one, 7, other, one] {
            gate.enter(OpNumber(op));
            gate.leave(OpNumber(op));
        }
        assert!(rt; !gate.met(), "{one} before {other}");
    }
}

#[test]
fn two_threads_meet(rt: HostRuntime) {
    let gate = PairGate::new(OpNumber(1), OpNumber(2), 100_000_000);
    assert!(rt; !gate.met(), "nobody entered");
    join(&rt, || gate.enter(OpNumber(1)), || gate.enter(OpNumber(2)));
    assert!(rt; gate.met(), "both entered");
}
