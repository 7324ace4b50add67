//! Jumps, and the heads of loops.

ghost use Rattle.std.specs.Prelude.{◌≡◌, ℤ, pos, IfOk, length, ◌<◌, ◌<ℤ◌, ◌^◌, ◌-◌};
ghost use Rattle.task_machine.specs.Acts.{Does};
ghost use Rattle.machine_terms.specs.Jumps.{and_jump, jump, jump_if_not, leave, next_number};
ghost use Rattle.machine_terms.specs.Jumps.{next_point, or_jump, round, turn};
ghost use Rattle.machine_terms.specs.Machine.{on_turn};

use crate::running::{Act, Running};
use machine_state::{Upcoming, loop_value, may_jump, next_of};
use machine_terms::Value;
use regent_tree::FaultKind;
use std::alloc::AllocError;
use task_code::Line;

impl Running {
    /// Goes to a place, where a jump may go there.
    #[inline(always)]
    pub(crate) fn jump(&mut self, body: &[Line], pc: u32, to: u32) -> Act
        ensures { Does (λ m. jump body.now to m.frame.stack m) pc self.old self.new result }
    {
        if may_jump(body, pc, to) {
            Act::Jump(to)
        } else {
            Act::broken()
        }
    }

    /// Pops a number, and jumps on 0.
    #[inline(always)]
    pub(crate) fn jump_if_not(&mut self, body: &[Line], pc: u32, to: u32) -> Act
        ensures { Does (jump_if_not body.now to) pc self.old self.new result }
    {
        let Some(z) = self.frame.stack.pop_number() else {
            return Act::broken();
        };
        if z == 0 {
            self.jump(body, pc, to)
        } else {
            Act::Next
        }
    }

    /// Pops a number; on 0 it pushes 0 and jumps.
    pub(crate) fn and_jump(&mut self, body: &[Line], pc: u32, to: u32) -> Result<Act, AllocError>
        ensures { IfOk result (Does (and_jump body.now to) pc self.old self.new) }
    {
        let Some(z) = self.frame.stack.pop_number() else {
            return Ok(Act::broken());
        };
        if z != 0 {
            return Ok(Act::Next);
        }
        self.frame.stack.push_number(0)?;
        Ok(self.jump(body, pc, to))
    }

    /// Pops a number; on another than 0 it pushes 1 and jumps.
    pub(crate) fn or_jump(&mut self, body: &[Line], pc: u32, to: u32) -> Result<Act, AllocError>
        ensures { IfOk result (Does (or_jump body.now to) pc self.old self.new) }
    {
        let Some(z) = self.frame.stack.pop_number() else {
            return Ok(Act::broken());
        };
        if z == 0 {
            return Ok(Act::Next);
        }
        self.frame.stack.push_number(1)?;
        Ok(self.jump(body, pc, to))
    }

    /// Takes a turn.
    #[inline(always)]
    pub(crate) fn turn(&mut self, pc: u32, line: u32) -> Act
        ensures { Does (turn line) pc self.old self.new result }
    {
        if self.frame.turns == 0 {
            return Act::fault(FaultKind::Turns, line);
        }
        self.frame.turns -= 1;
        Act::Next
    }

    /// Goes to the place behind a loop.
    #[inline(always)]
    fn leave(&mut self, pc: u32, exit: u32) -> Act
        ensures { Does (leave exit) pc self.old self.new result }
    {
        if pc < exit {
            Act::Jump(exit)
        } else {
            Act::broken()
        }
    }

    /// Takes a turn for the next round of a loop: its variable gets a number, and its counter is raised.
    #[inline(always)]
    fn round(&mut self, pc: u32, counter: u32, variable: u32, z: i64, count: i64, line: u32) -> Act
        requires slot { counter < length self.old.slots }
        requires room { count <ℤ pos (2 ^ 63 - 1) }
        ensures { Does (λ m. on_turn m.frame.turns line m (round counter variable z count))
            pc self.old self.new result }
    {
        if self.frame.turns == 0 {
            return Act::fault(FaultKind::Turns, line);
        }
        self.frame.turns -= 1;
        if variable as usize >= self.slots.len() {
            return Act::broken();
        }
        self.slots.set_number(variable, z);
        self.slots.set_number(counter, count + 1);
        Act::Next
    }

    /// The head of a loop over numbers: the next round, or its exit.
    #[inline(always)]
    pub(crate) fn next_number(
        &mut self,
        pc: u32,
        counter: u32,
        limit: u32,
        variable: u32,
        exit: u32,
        line: u32,
    ) -> Act
        ensures { Does (next_number counter limit variable exit line) pc self.old self.new result }
    {
        let slots = self.slots.as_slice();
        let (Some(Value::Number(i)), Some(Value::Number(n))) = (
            slots.get(counter as usize),
            slots.get(limit as usize),
        ) else {
            return Act::broken();
        };
        let (i, n) = (*i, *n);
        if i < n {
            self.round(pc, counter, variable, i, i, line)
        } else {
            self.leave(pc, exit)
        }
    }

    /// The head of a loop over the points of a space or region: the next round, or its exit.
    #[tactic(auto, using(crate::proofs::Rounds::next_point_by))]
    #[inline(never)]
    pub(crate) fn next_point(
        &mut self,
        pc: u32,
        domain: u32,
        counter: u32,
        variable: u32,
        pointer: bool,
        exit: u32,
        line: u32,
    ) -> Act
        ensures { Does (next_point domain counter variable pointer exit line) pc self.old self.new result }
    {
        let slots = self.slots.as_slice();
        let (Some(domain), Some(Value::Number(count))) = (
            slots.get(domain as usize),
            slots.get(counter as usize),
        ) else {
            return Act::broken();
        };
        let count = *count;
        match next_of(domain, count) {
            Upcoming::Point(point) => {
                let z = loop_value(pointer, point);
                self.round(pc, counter, variable, z, count, line)
            }
            Upcoming::End => self.leave(pc, exit),
            Upcoming::Nowhere => Act::broken(),
        }
    }
}
