//! Calls, prints, and the ends of a task instance.

ghost use Rattle.std.specs.Prelude.{None, IfOk, List};
ghost use Rattle.task_machine.specs.Acts.{Does, with_stack};
ghost use Rattle.machine_terms.specs.declared.value.Value.{Value as MachineValue};
ghost use Rattle.machine_terms.specs.Calls.{assert, call, calling, end_with, print};
ghost use Rattle.machine_terms.specs.Calls.{taken};
ghost use Rattle.machine_terms.specs.declared.outcome.Yield.TheVariants.{End};
ghost use Rattle.machine_terms.specs.Machine.{stops};

use crate::running::{Act, Running};
use machine_state::{count_numbers, take_values, text_of};
use machine_terms::{CallOut, DEEPEST, Value, Yield};
use plain_values::Sequence;
use regent_tree::FaultKind;
use std::alloc::AllocError;
use task_code::{Code, PrintPart};

impl Running {
    /// Yields a call, which costs a turn; its pending child is pushed.
    #[inline(never)]
    fn issue(&mut self, pc: u32, task: u32, args: Vec<Value>, line: u32) -> Result<Act, AllocError>
        ensures { IfOk result (λ act. (below : List MachineValue) →
            Does (λ m. calling task line (taken args.items m.frame.stack) (with_stack below m))
            pc self.old self.new act) }
    {
        if self.frame.turns == 0 {
            return Ok(Act::fault(FaultKind::Turns, line));
        }
        self.frame.turns -= 1;
        if self.frame.depth >= DEEPEST {
            return Ok(Act::fault(FaultKind::Depth, line));
        }
        let Some(children) = self.frame.children.checked_add(1) else {
            return Ok(Act::broken());
        };
        let Some(next) = pc.checked_add(1) else {
            return Ok(Act::broken());
        };
        self.frame.stack.push(Value::Pending(self.frame.children))?;
        self.frame.children = children;
        let args = Sequence::from_vec(args);
        let mut calls = Sequence::new(self.alloc);
        calls.push(CallOut { task, args })?;
        Ok(self.stop_at(next, Yield::Calls(calls)))
    }

    /// Pops the arguments of a task, and yields the call.
    #[inline(never)]
    pub(crate) fn call(
        &mut self,
        pc: u32,
        code: &Code,
        task: u32,
        count: u8,
        line: u32,
    ) -> Result<Act, AllocError>
        ensures { IfOk result (Does (call code.now task count line) pc self.old self.new) }
    {
        let Some(called) = code.tasks.as_slice().get(task as usize) else {
            return Ok(Act::broken());
        };
        if called.params != count {
            return Ok(Act::broken());
        }
        match take_values(self.alloc, &mut self.frame.stack, usize::from(count))? {
            Some(args) => Ok(self.issue(pc, task, args, line)?),
            None => Ok(Act::broken()),
        }
    }

    /// Pops the numbers of a print, and writes its text behind what was printed before.
    #[inline(never)]
    pub(crate) fn print(&mut self, pc: u32, parts: &Sequence<PrintPart>) -> Result<Act, AllocError>
        ensures { IfOk result (Does (print parts.now) pc self.old self.new) }
    {
        let count = count_numbers(parts.as_slice());
        let Some(values) = take_values(self.alloc, &mut self.frame.stack, count)? else {
            return Ok(Act::broken());
        };
        match text_of(self.alloc, parts.as_slice(), values.as_slice())? {
            Some(text) => {
                self.text.extend(text.as_slice())?;
                Ok(Act::Next)
            }
            None => Ok(Act::broken()),
        }
    }

    /// Pops a truth, and is a fault where it is 0.
    pub(crate) fn assert(&mut self, pc: u32, line: u32) -> Act
        ensures { Does (assert line) pc self.old self.new result }
    {
        match self.frame.stack.pop_number() {
            Some(0) => Act::fault(FaultKind::AssertFailed, line),
            Some(_) => Act::Next,
            None => Act::broken(),
        }
    }

    /// Ends the task instance without a value.
    pub(crate) fn end(&mut self, pc: u32) -> Act
        ensures { Does (stops (End None)) pc self.old self.new result }
    {
        self.stop_at(pc, Yield::End(None))
    }

    /// Pops a number, and ends the task instance with it.
    pub(crate) fn end_with(&mut self, pc: u32) -> Act
        ensures { Does end_with pc self.old self.new result }
    {
        match self.frame.stack.pop_number() {
            Some(z) => self.stop_at(pc, Yield::End(Some(z))),
            None => Act::broken(),
        }
    }
}
