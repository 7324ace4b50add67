//! Gates.

use region_tree::OpNumber;

/// What each segment goes through that a worker runs: it enters before, and leaves behind. A gate sees which operations
/// run at one time; it changes nothing of what they do.
pub trait Gate: Sync {
    /// The segment of an operation is about to run.
    fn enter(&self, op: OpNumber);

    /// It has run, or there was no memory for it.
    fn leave(&self, op: OpNumber);
}

/// A gate that stands open.
#[derive(Clone, Copy, Debug, PartialEq, Eq)]
pub struct OpenGate;

impl Gate for OpenGate {
    fn enter(&self, _op: OpNumber) {}

    fn leave(&self, _op: OpNumber) {}
}
