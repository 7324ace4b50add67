//! Planned faults.

ghost use Rattle.std.specs.Prelude.{◌≡◌, ◌≤◌, ◌↔◌, IsErr, IsTrue, Contains};
ghost use Rattle.run_io.specs.Faults.{HasCause, one_more};

use crate::failed::Failed;
use crate::fault_count::FaultCount;
use std::marker::Model;

/// Counts calls from 1, and faults. The calls whose numbers are listed fail.
#[derive(Drop)]
pub(crate) struct FaultPlan {
    faults: FaultCount,
    calls: u64,
    fails: Vec<u32>,
}

impl Model for FaultPlan {
    ghost use Rattle.run_io.specs.Plan.{Plan};

    ghost Value = { Plan };

    ghost view = { λ s. record { faults = s.faults; calls = s.calls; fails = s.fails.items } };
}

impl FaultPlan {
    ghost use Rattle.run_io.specs.Plan.{IsNextListed, CountsCall};

    pub(crate) fn new(fails: Vec<u32>) -> Self
        ensures faults { result.faults ≡ 0 }
        ensures calls { result.calls ≡ 0 }
        ensures fails { result.fails ≡ fails.items }
    {
        FaultPlan {
            faults: FaultCount::new(),
            calls: 0,
            fails,
        }
    }

    /// Counts a call, which fails if its number is listed.
    pub(crate) fn call(&mut self) -> Result<(), Failed>
        ensures listed { IsErr result ↔ IsNextListed self.old }
        ensures cause { HasCause self.old.faults self.new.faults result }
        ensures counts { CountsCall self.old self.new result }
    {
        let number = self.calls.saturating_add(1);
        self.calls = number;
        if is_listed(&self.fails, number) {
            return Err(self.faults.raise());
        }
        Ok(())
    }

    /// Counts a fault that is not in the list.
    pub(crate) fn count_fault(&mut self) -> Failed
        ensures faults { self.new.faults ≡ one_more self.old.faults }
        ensures later { self.old.faults ≤ self.new.faults }
        ensures calls { self.new.calls ≡ self.old.calls }
        ensures fails { self.new.fails ≡ self.old.fails }
    {
        self.faults.raise()
    }
}

fn is_listed(fails: &[u32], number: u64) -> bool
    ensures { IsTrue result ↔ Contains fails.now number }
{
    fails.iter().any(|listed| u64::from(*listed) == number)
}
