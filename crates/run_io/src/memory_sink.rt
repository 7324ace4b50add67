//! A sink over memory with planned faults.

ghost use Rattle.std.specs.Prelude.{◌≡◌, [], IfOk};

use crate::failed::Failed;
use crate::plan::FaultPlan;
use crate::sink::Sink;
use std::alloc::{AllocError, Global};
use std::marker::Model;

/// A sink over memory that fails at the listed writes, and if it can take no byte.
///
/// Writes count from 1. Its memory is allocated when it is made.
#[derive(Drop)]
pub struct MemorySink {
    held: Vec<u8>,
    room: usize,
    step: usize,
    plan: FaultPlan,
}

impl Model for MemorySink {
    ghost use Rattle.std.specs.Prelude.{◌≤◌, vec_len, vec_capacity};
    ghost use Rattle.run_io.specs.MemorySink.{PlannedSink};

    ghost Value = { PlannedSink };

    ghost view = { λ s. record { held = s.held.items; room = s.room; step = s.step; plan = s.plan } };

    ghost invariant = { λ s. (vec_len s.held ≤ s.room) × (s.room ≤ vec_capacity s.held) };
}

impl MemorySink {
    /// A sink for at most `room` bytes, of which one write takes at most `step`.
    pub fn new(
        alloc: Global,
        room: usize,
        step: usize,
        fails: Vec<u32>,
    ) -> Result<MemorySink, AllocError>
        ensures held { IfOk result (λ sink. sink.held ≡ []) }
        ensures room { IfOk result (λ sink. sink.room ≡ room) }
        ensures step { IfOk result (λ sink. sink.step ≡ step) }
        ensures faults { IfOk result (λ sink. sink.plan.faults ≡ 0) }
        ensures calls { IfOk result (λ sink. sink.plan.calls ≡ 0) }
        ensures fails { IfOk result (λ sink. sink.plan.fails ≡ fails.items) }
    {
        let held = Vec::with_capacity(alloc, room)?;
        Ok(MemorySink {
            held,
            room,
            step,
            plan: FaultPlan::new(fails),
        })
    }

    /// The bytes that it holds.
    pub fn bytes(&self) -> &[u8]
        ensures { result.now ≡ self.now.held }
    {
        self.held.as_slice()
    }
}

impl Sink for MemorySink {
    ghost use Rattle.std.specs.Prelude.{◌≡◌, ◌<◌, ◌↔◌, ◌⊎◌, ◌++◌, Some, IsErr, OnErr, IfOk, length, take};
    ghost use Rattle.run_io.specs.Faults.{HasCause};
    ghost use Rattle.run_io.specs.Plan.{IsNextListed, CountsCall};
    ghost use Rattle.run_io.specs.MemorySink.{taken_count, sure_count};

    ghost faults = { λ s. s.plan.faults };

    ghost held = { λ s. Some s.held };

    ghost sure = { sure_count };

    fn write(&mut self, buf: &[u8]) -> Result<usize, Failed>
        requires { 0 < length buf.now }
        ensures fails { IsErr result ↔ (IsNextListed self.old.plan ⊎ (taken_count self.old (length buf.now) ≡ 0)) }
        ensures cause { HasCause self.old.plan.faults self.new.plan.faults result }
        ensures counts { CountsCall self.old.plan self.new.plan result }
        ensures count { IfOk result (λ n. n ≡ taken_count self.old (length buf.now)) }
        ensures ok { IfOk result (λ n. self.new.held ≡ self.old.held ++ take n buf.now) }
        ensures err { OnErr result (self.new.held ≡ self.old.held) }
        ensures room { self.new.room ≡ self.old.room }
        ensures step { self.new.step ≡ self.old.step }
    {
        self.plan.call()?;
        let n = buf.len().min(self.step).min(self.room - self.held.len());
        if n == 0 {
            return Err(self.plan.count_fault());
        }
        // There is room: `new` reserved it.
        self.held.extend_from_slice(&buf[..n]).unwrap();
        Ok(n)
    }
}
