//! Why a check fails.

use regent_tree::Program;
use std::alloc::AllocError;

/// Why a program isn't accepted.
#[derive(Drop)]
pub enum CheckFault {
    /// The program breaches a rule, told by its number, on a line.
    Refused {
        program: Program,
        rule: u8,
        line: u32,
    },
    Memory(AllocError),
}
