//! Instructions on numbers, slots and the stack.

ghost use Rattle.std.specs.Prelude.{◌∷◌, IfOk, slice_get};
ghost use Rattle.lane_kernels.specs.Numbers.{wrapped};
ghost use Rattle.task_machine.specs.Acts.{Does};
ghost use Rattle.machine_terms.specs.Machine.{next};
ghost use Rattle.machine_terms.specs.Numbers.{arithmetic, comparison, discard, inverted, load};
ghost use Rattle.machine_terms.specs.Numbers.{negated, replaced, store};

use crate::running::{Act, Running};
use lane_kernels::Width;
use machine_state::{compare, compute, kept_truth, negate};
use machine_terms::{Value, Yield};
use regent_tree::{Arithmetic, Comparison, FaultKind};
use std::alloc::AllocError;

impl Running {
    /// Pushes a value, and goes on.
    #[inline(always)]
    pub(crate) fn push(&mut self, pc: u32, value: Value) -> Result<Act, AllocError>
        ensures { IfOk result (Does (λ m. next (value ∷ m.frame.stack) m) pc self.old self.new) }
    {
        self.frame.stack.push(value)?;
        Ok(Act::Next)
    }

    /// Pushes the value of a slot; of a child that is pending there the value is awaited.
    #[inline(always)]
    pub(crate) fn load(&mut self, pc: u32, slot: u32) -> Result<Act, AllocError>
        ensures { IfOk result (Does (λ m. load m (slice_get m.frame.slots slot)) pc self.old self.new) }
    {
        match self.slots.as_slice().get(slot as usize) {
            None => Ok(Act::broken()),
            Some(Value::Pending(child)) => {
                let child = *child;
                Ok(self.stop_at(pc, Yield::Await(child)))
            }
            Some(value) => {
                let value = value.copy()?;
                self.push(pc, value)
            }
        }
    }

    /// Pops into a slot.
    #[inline(always)]
    pub(crate) fn store(&mut self, pc: u32, slot: u32) -> Act
        ensures { Does (λ m. store slot m.frame.stack m) pc self.old self.new result }
    {
        let Some(value) = self.frame.stack.pop() else {
            return Act::broken();
        };
        if slot as usize >= self.slots.len() {
            return Act::broken();
        }
        self.slots.set(slot, value);
        Act::Next
    }

    /// Pops.
    pub(crate) fn discard(&mut self, pc: u32) -> Act
        ensures { Does (λ m. discard m.frame.stack m) pc self.old self.new result }
    {
        match self.frame.stack.pop() {
            Some(_) => Act::Next,
            None => Act::broken(),
        }
    }

    /// Pops two numbers, the right one first, and pushes what an operator makes of them.
    #[inline(always)]
    pub(crate) fn arithmetic(
        &mut self,
        pc: u32,
        operator: Arithmetic,
        width: Width,
        line: u32,
    ) -> Result<Act, AllocError>
        ensures { IfOk result (Does (arithmetic operator width line) pc self.old self.new) }
    {
        let Some(b) = self.frame.stack.pop_number() else {
            return Ok(Act::broken());
        };
        let Some(a) = self.frame.stack.pop_number() else {
            return Ok(Act::broken());
        };
        match compute(operator, width, a, b) {
            Some(z) => {
                self.frame.stack.push_number(z)?;
                Ok(Act::Next)
            }
            None => Ok(Act::fault(FaultKind::DivideByZero, line)),
        }
    }

    /// Pops two numbers, the right one first, and pushes whether they compare so.
    #[inline(always)]
    pub(crate) fn comparison(&mut self, pc: u32, kind: Comparison) -> Result<Act, AllocError>
        ensures { IfOk result (Does (comparison kind) pc self.old self.new) }
    {
        let Some(b) = self.frame.stack.pop_number() else {
            return Ok(Act::broken());
        };
        let Some(a) = self.frame.stack.pop_number() else {
            return Ok(Act::broken());
        };
        let truth = kept_truth(compare(kind, a, b));
        self.frame.stack.push_number(truth)?;
        Ok(Act::Next)
    }

    /// Replaces the number on top by its negative at a width.
    pub(crate) fn negate(&mut self, pc: u32, width: Width) -> Result<Act, AllocError>
        ensures { IfOk result (Does (replaced (negated width)) pc self.old self.new) }
    {
        let Some(z) = self.frame.stack.pop_number() else {
            return Ok(Act::broken());
        };
        let z = negate(width, z);
        self.frame.stack.push_number(z)?;
        Ok(Act::Next)
    }

    /// Replaces the number on top by what is left of it at a width.
    #[inline(always)]
    pub(crate) fn wrap(&mut self, pc: u32, width: Width) -> Result<Act, AllocError>
        ensures { IfOk result (Does (replaced (wrapped width)) pc self.old self.new) }
    {
        let Some(z) = self.frame.stack.pop_number() else {
            return Ok(Act::broken());
        };
        let z = width.wrap(z);
        self.frame.stack.push_number(z)?;
        Ok(Act::Next)
    }

    /// Replaces 0 on top by 1, and each other number by 0.
    pub(crate) fn invert(&mut self, pc: u32) -> Result<Act, AllocError>
        ensures { IfOk result (Does (replaced inverted) pc self.old self.new) }
    {
        let Some(z) = self.frame.stack.pop_number() else {
            return Ok(Act::broken());
        };
        let truth = kept_truth(z == 0);
        self.frame.stack.push_number(truth)?;
        Ok(Act::Next)
    }
}
