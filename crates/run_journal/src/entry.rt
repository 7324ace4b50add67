//! Entries of a journal.

use region_tree::OpNumber;

/// What a step does: it claims an operation, copies elements out for it, gives back what its segment left, or takes
/// a claim back.
#[derive(Clone, Copy, Debug, PartialEq, Eq)]
pub enum StepKind {
    Claim,
    Copy,
    Give,
    Back,
}

/// A step that changed a board: what it did, to which operation, and by which seat.
#[derive(Clone, Copy, Debug, PartialEq, Eq)]
pub struct Entry {
    pub kind: StepKind,
    pub op: OpNumber,
    pub seat: u16,
}
