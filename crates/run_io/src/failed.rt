//! The result of a source or a sink that had a fault.

/// A source or a sink had a fault, which raised its count of faults.
#[derive(Clone, Copy, Debug, PartialEq, Eq)]
pub struct Failed;
