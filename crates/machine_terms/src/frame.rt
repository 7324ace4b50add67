//! A task instance between two segments.

use crate::stack::Stack;
use crate::value::Value;
use plain_values::{Sequence, Shared};
use regent_tree::Fault;
use region_tree::{Needs, Part, RootId};
use task_code::Code;

/// The deepest that a task instance may stand and still call.
pub const DEEPEST: u8 = 64;

/// A task instance: its task, the place of its next instruction, its values, the turns that are left
/// to it, its depth (that of the entry task is 1), what it needs, the roots that it made, how many
/// children it called, and the fault that follows a launch of which the calls before were issued.
#[derive(Drop)]
pub struct Frame {
    pub task: u32,
    pub pc: u32,
    pub slots: Sequence<Value>,
    pub stack: Stack,
    pub turns: u64,
    pub depth: u8,
    pub needs: Needs,
    pub own: Sequence<RootId>,
    pub children: u64,
    pub later: Option<Fault>,
}

/// What a segment runs from: the code, a frame, and the parts of regions' fields that were copied out
/// for it, at most one for a root and field.
#[derive(Drop)]
pub struct Before {
    pub code: Shared<Code>,
    pub frame: Frame,
    pub parts: Sequence<Part>,
}
