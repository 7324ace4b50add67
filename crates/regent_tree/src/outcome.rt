//! What a run ends with.

use plain_values::Sequence;

/// The kinds of faults that stop a program.
#[derive(Clone, Copy, Debug, PartialEq, Eq)]
pub enum FaultKind {
    DivideByZero,
    OutOfRegion,
    NullPointer,
    BadColor,
    AssertFailed,
    Turns,
    Depth,
    BadSize,
}

/// A fault, and the line on which the innermost statement begins that was being run.
#[derive(Clone, Copy, Debug, PartialEq, Eq)]
pub struct Fault {
    pub kind: FaultKind,
    pub line: u32,
}

/// The final contents of a region that the entry task made: the place of its field space among
/// those of the text, how many points it has, and for each field a number for each point.
#[derive(Debug, PartialEq, Eq, Drop)]
pub struct RootImage {
    pub space: u32,
    pub count: u32,
    pub fields: Sequence<Sequence<i64>>,
}

/// How a run ends. `Broken` belongs to code that no accepted program compiles to.
#[derive(Debug, PartialEq, Eq, Drop)]
pub enum Ending {
    Finished(Sequence<RootImage>),
    Faulted(Fault),
    Broken,
}

/// What a run printed, and how it ended.
#[derive(Debug, PartialEq, Eq, Drop)]
pub struct Outcome {
    pub text: Sequence<u8>,
    pub ending: Ending,
}
