//! Loops, by where they begin.

use index_launch::LaunchShape;

/// A `for` loop: the line on which it begins, and whether its calls can be issued in one step.
#[derive(Clone, Copy, Debug, PartialEq, Eq)]
pub struct LoopShape {
    pub line: u32,
    pub shape: LaunchShape,
}
