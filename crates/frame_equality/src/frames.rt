//! Frames.

ghost use Rattle.std.specs.Prelude.{◌≡◌, ◌↔◌, [], IfOk, IsTrue};
ghost use Rattle.frame_equality.specs.Frames.{numbers_of};

use crate::same::{Same, are_same};
use machine_terms::{Frame, Stack};
use region_tree::{Need, RootId};
use std::alloc::{AllocError, Global};

impl Same for Need {
    fn is_same(&self, other: &Need) -> bool {
        self.root.0 == other.root.0
            && self.node.0 == other.node.0
            && self.field == other.field
            && self.mode == other.mode
    }
}

impl Same for RootId {
    fn is_same(&self, other: &RootId) -> bool {
        self.0 == other.0
    }
}

/// Whether two frames are the same. Their stacks are compared from the top down, on copies.
pub fn is_same_frame(alloc: Global, frame: &Frame, other: &Frame) -> Result<bool, AllocError>
    ensures { IfOk result (λ same. IsTrue same ↔ (frame.now ≡ other.now)) }
{
    if !is_same_state(frame, other) {
        return Ok(false);
    }
    let copy = frame.copy(alloc)?;
    let to = other.copy(alloc)?;
    Ok(is_same_stack(copy.stack, to.stack))
}

/// Whether two frames are the same but for their stacks.
fn is_same_state(frame: &Frame, other: &Frame) -> bool
    ensures { IsTrue result ↔ (record frame.now { stack = [] } ≡ record other.now { stack = [] }) }
{
    are_same_numbers(frame, other)
        && are_same(frame.slots.as_slice(), other.slots.as_slice())
        && are_same(frame.needs.items.as_slice(), other.needs.items.as_slice())
        && are_same(frame.own.as_slice(), other.own.as_slice())
        && frame.later == other.later
}

/// Whether the places, turns and counts of two frames are the same.
fn are_same_numbers(frame: &Frame, other: &Frame) -> bool
    ensures { IsTrue result ↔ (numbers_of frame.now ≡ numbers_of other.now) }
{
    frame.task == other.task
        && frame.pc == other.pc
        && frame.turns == other.turns
        && frame.depth == other.depth
        && frame.children == other.children
}

/// Whether two stacks hold the same values.
fn is_same_stack(stack: Stack, other: Stack) -> bool
    ensures { IsTrue result ↔ (stack ≡ other) }
{
    let mut rest = stack;
    let mut to = other;
    while let Some(value) = rest.pop() {
        match to.pop() {
            Some(beside) => {
                if !value.is_same(&beside) {
                    return false;
                }
            }
            None => return false,
        }
    }
    to.pop().is_none()
}
