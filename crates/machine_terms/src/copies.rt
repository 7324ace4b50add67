//! Copies of frames.

ghost use Rattle.std.specs.Prelude.{◌≡◌, IfOk, reverse};

use crate::frame::Frame;
use crate::stack::Stack;
use crate::value::Value;
use plain_values::Sequence;
use region_tree::Needs;
use std::alloc::{AllocError, Global};

/// The same values once more.
fn copy_values(alloc: Global, values: &[Value]) -> Result<Vec<Value>, AllocError>
    ensures { IfOk result (λ copy. copy.items ≡ values.now) }
{
    let mut copy = Vec::new(alloc);
    for value in values {
        copy.push(value.copy()?)?;
    }
    Ok(copy)
}

impl Stack {
    /// The same stack once more.
    fn copy(&self, alloc: Global) -> Result<Stack, AllocError>
        ensures { IfOk result (λ copy. copy ≡ self.now) }
    {
        Ok(Stack::from_bottom(copy_values(alloc, self.as_bottom())?))
    }
}

impl Frame {
    /// The same frame once more. What regions and partitions hold is shared.
    pub fn copy(&self, alloc: Global) -> Result<Frame, AllocError>
        ensures { IfOk result (λ copy. copy ≡ self.now) }
    {
        let slots = Sequence::from_vec(copy_values(alloc, self.slots.as_slice())?);
        let stack = self.stack.copy(alloc)?;
        let needs = Needs {
            items: self.needs.items.copy()?,
        };
        let own = self.own.copy()?;
        Ok(Frame {
            task: self.task,
            pc: self.pc,
            slots,
            stack,
            turns: self.turns,
            depth: self.depth,
            needs,
            own,
            children: self.children,
            later: self.later,
        })
    }
}
