//! The code of a program.

use crate::instr::Instr;
use lane_kernels::{FieldKind, Mode};
use plain_values::Sequence;

/// A field of a field space.
#[derive(Debug, PartialEq, Eq, Drop)]
pub struct FieldCode {
    pub name: Sequence<u8>,
    pub kind: FieldKind,
}

/// A field space, by its name and its fields in the order of the text.
#[derive(Debug, PartialEq, Eq, Drop)]
pub struct SpaceCode {
    pub name: Sequence<u8>,
    pub fields: Sequence<FieldCode>,
}

/// A declared privilege: the parameter that is a region, by its place from 0, a field of it, and the mode.
/// Writing is `Write` with or without reading.
#[derive(Clone, Copy, Debug, PartialEq, Eq)]
pub struct NeedCode {
    pub param: u8,
    pub field: u8,
    pub mode: Mode,
}

/// An instruction, with the line on which the statement begins that it belongs to.
#[derive(PartialEq, Eq, Drop)]
pub struct Line {
    pub instr: Instr,
    pub line: u32,
}

/// A task. Its parameters have the first of its slots, in order.
#[derive(PartialEq, Eq, Drop)]
pub struct TaskCode {
    pub params: u8,
    pub result: bool,
    pub needs: Sequence<NeedCode>,
    pub slots: u32,
    pub body: Sequence<Line>,
}

/// The tasks and field spaces of a program, in the order of the text, and the task that runs first.
#[derive(PartialEq, Eq, Drop)]
pub struct Code {
    pub tasks: Sequence<TaskCode>,
    pub spaces: Sequence<SpaceCode>,
    pub start: u32,
}
