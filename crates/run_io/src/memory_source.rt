//! A source over memory with planned faults.

ghost use Rattle.std.specs.Prelude.{◌≡◌, [], ◌∷◌};

use crate::failed::Failed;
use crate::feed::Feed;
use crate::plan::FaultPlan;
use crate::source::Source;
use std::marker::Model;

/// A source over bytes in memory that fails at the listed calls, and at no others.
///
/// Calls count from 1, and a begin is one.
#[derive(Drop)]
pub struct MemorySource {
    feed: Feed,
    plan: FaultPlan,
}

impl Model for MemorySource {
    ghost use Rattle.std.specs.Prelude.{◌≡◌, []};
    ghost use Rattle.run_io.specs.MemorySource.{PlannedSource};

    ghost Value = { PlannedSource };

    ghost view = { λ s. record { told = s.feed; plan = s.plan } };

    ghost invariant = { λ s. s.feed.begins ≡ 0 → s.feed.left ≡ [] };
}

impl MemorySource {
    /// The first begin that doesn't fail leaves the bytes, and a later one nothing.
    pub fn new(bytes: Vec<u8>, fails: Vec<u32>) -> Self
        ensures left { result.told.left ≡ [] }
        ensures later { result.told.later ≡ bytes.items ∷ [] }
        ensures begins { result.told.begins ≡ 0 }
        ensures names { result.told.names ≡ [] }
        ensures faults { result.plan.faults ≡ 0 }
        ensures calls { result.plan.calls ≡ 0 }
        ensures fails { result.plan.fails ≡ fails.items }
    {
        MemorySource {
            feed: Feed::new(bytes),
            plan: FaultPlan::new(fails),
        }
    }
}

impl Source for MemorySource {
    ghost use Rattle.std.specs.Prelude.{◌≡◌, ◌<◌, ◌↔◌, ◌++◌, [], Some, IsErr, OnOk, OnErr, IfOk, length, min, take, drop, string_bytes};
    ghost use Rattle.run_io.specs.Faults.{HasCause};
    ghost use Rattle.run_io.specs.Plan.{IsNextListed, CountsCall};
    ghost use Rattle.run_io.specs.Told.{counted, begun};

    ghost faults = { λ s. s.plan.faults };

    ghost left = { λ s. Some s.told.left };

    ghost later = { λ s. Some s.told.later };

    ghost begins = { λ s. Some s.told.begins };

    ghost names = { λ s. Some s.told.names };

    fn begin(&mut self, name: String) -> Result<(), Failed>
        ensures fails { IsErr result ↔ IsNextListed self.old.plan }
        ensures cause { HasCause self.old.plan.faults self.new.plan.faults result }
        ensures counts { CountsCall self.old.plan self.new.plan result }
        ensures ok { OnOk result (self.new.told ≡ begun (string_bytes name) self.old.told) }
        ensures err { OnErr result (self.new.told ≡ counted (string_bytes name) self.old.told) }
    {
        self.feed.count_begin(name);
        self.plan.call()?;
        self.feed.open();
        Ok(())
    }

    fn read(&mut self, buf: &mut [u8]) -> Result<usize, Failed>
        requires { 0 < length buf.old }
        ensures fails { IsErr result ↔ IsNextListed self.old.plan }
        ensures cause { HasCause self.old.plan.faults self.new.plan.faults result }
        ensures counts { CountsCall self.old.plan self.new.plan result }
        ensures count { IfOk result (λ n. n ≡ min (length buf.old) (length self.old.told.left)) }
        ensures moved { IfOk result (λ n. buf.new ≡ take n self.old.told.left ++ drop n buf.old) }
        ensures ok { IfOk result (λ n. self.new.told ≡ record self.old.told { left = drop n self.old.told.left }) }
        ensures err { OnErr result (self.new.told ≡ self.old.told) }
        ensures err_buffer { OnErr result (buf.new ≡ buf.old) }
        ensures before_begin { self.old.told.begins ≡ 0 → self.old.told.left ≡ [] }
    {
        self.plan.call()?;
        Ok(self.feed.move_into(buf))
    }
}
