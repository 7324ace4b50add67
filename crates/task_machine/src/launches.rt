//! Launches: all calls of a loop over an index space at one time.

ghost use Rattle.std.specs.Prelude.{IfOk};
ghost use Rattle.launch_calls.specs.Rounds.{shown_launch};
ghost use Rattle.task_machine.specs.Acts.{Does};
ghost use Rattle.machine_terms.specs.Launches.{issue_all, launch, yield_calls};

use crate::running::{Act, Running};
use index_launch::LaunchArg;
use launch_calls::{Issued, Rounds, are_held, size_in};
use machine_terms::{CallOut, Yield};
use plain_values::Sequence;
use regent_tree::Fault;
use std::alloc::AllocError;
use task_code::Code;

impl Running {
    /// Yields the calls of a launch, or the fault that comes before any.
    fn issue_all(&mut self, pc: u32, issued: Issued) -> Act
        ensures { Does (issue_all (shown_launch issued)) pc self.old self.new result }
    {
        let Issued {
            calls,
            turns,
            fault,
        } = issued;
        match fault {
            Some(fault) if calls.is_empty() => Act::Fault(fault),
            fault => self.yield_calls(pc, calls, turns, fault),
        }
    }

    /// Yields calls, behind which a fault may follow.
    fn yield_calls(
        &mut self,
        pc: u32,
        calls: Sequence<CallOut>,
        turns: u64,
        fault: Option<Fault>,
    ) -> Act
        ensures { Does (yield_calls (record { calls = calls; turns = turns; fault = fault })) pc self.old self.new result }
    {
        let Some(children) = self.frame.children.checked_add(calls.len() as u64) else {
            return Act::broken();
        };
        let Some(next) = pc.checked_add(1) else {
            return Act::broken();
        };
        self.frame.turns = turns;
        self.frame.children = children;
        self.frame.later = fault;
        self.stop_at(next, Yield::Calls(calls))
    }

    /// Has a task called for each point of the index space in a slot.
    #[inline(never)]
    pub(crate) fn launch(
        &mut self,
        pc: u32,
        code: &Code,
        task: u32,
        slot: u32,
        call_line: u32,
        args: &Sequence<LaunchArg>,
        line: u32,
    ) -> Result<Act, AllocError>
        ensures { IfOk result (Does (launch code.now task slot call_line args.now line) pc self.old self.new) }
    {
        let Some(called) = code.tasks.as_slice().get(task as usize) else {
            return Ok(Act::broken());
        };
        if usize::from(called.params) != args.len() || !are_held(&self.slots, args.as_slice()) {
            return Ok(Act::broken());
        }
        let Some(size) = size_in(&self.slots, slot) else {
            return Ok(Act::broken());
        };
        let rounds = Rounds {
            task,
            depth: self.frame.depth,
            loop_line: line,
            call_line,
        };
        let issued = rounds.issue(
            self.alloc,
            &self.slots,
            size,
            args.as_slice(),
            self.frame.turns,
        )?;
        Ok(self.issue_all(pc, issued))
    }
}
