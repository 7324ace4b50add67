//! A gate at which two operations wait for each other.

ghost use Rattle.std.specs.Prelude.{◌≢◌};

use crate::gate::Gate;
use region_tree::OpNumber;
use std::sync::atomic::{AtomicBool, Ordering};
use std::thread;

/// A gate for tests, which shows that two operations run at one time. Each of the two that enters leaves its mark, and
/// looks for the mark of the other one. One thread that enters both, one after the other, finds no mark at the first, so
/// the two never meet, in whichever order it enters them.
#[derive(Drop)]
pub struct PairGate {
    first: OpNumber,
    second: OpNumber,
    turns: u32,
    first_entered: AtomicBool,
    second_entered: AtomicBool,
    missed: AtomicBool,
}

impl PairGate {
    /// A gate for these two, each of which looks so many times at most.
    pub fn new(first: OpNumber, second: OpNumber, turns: u32) -> PairGate
        requires { first ≢ second }
    {
        PairGate {
            first,
            second,
            turns,
            first_entered: AtomicBool::new(false),
            second_entered: AtomicBool::new(false),
            missed: AtomicBool::new(false),
        }
    }

    /// Whether both have entered, and each found the other one's mark.
    pub fn met(&self) -> bool {
        self.first_entered.load(Ordering::SeqCst)
            && self.second_entered.load(Ordering::SeqCst)
            && !self.missed.load(Ordering::SeqCst)
    }

    /// Leaves a mark and looks for another one. That it didn't come is noted for good.
    fn meet(&self, own: &AtomicBool, other: &AtomicBool) {
        own.store(true, Ordering::SeqCst);
        for _ in 0..self.turns {
            if other.load(Ordering::SeqCst) {
                return;
            }
            thread::yield_now();
        }
        self.missed.store(true, Ordering::SeqCst);
    }
}

impl Gate for PairGate {
    fn enter(&self, op: OpNumber) {
        if op == self.first {
            self.meet(&self.first_entered, &self.second_entered);
        } else if op == self.second {
            self.meet(&self.second_entered, &self.first_entered);
        }
    }

    fn leave(&self, _op: OpNumber) {}
}
