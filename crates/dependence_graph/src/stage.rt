//! How operations wait and end.

ghost use Rattle.std.specs.Prelude.{◌≡◌};
ghost use Rattle.dependence_graph.specs.Knots.{is_idle, is_in_progress, same_stage};

use region_tree::{Needs, OpNumber};

/// Where an operation stands.
#[derive(Clone, Copy, Debug, PartialEq, Eq)]
pub enum Stage {
    /// It was issued and hasn't begun.
    Waiting,
    Begun,
    /// It has begun and waits for some of its children.
    Parked,
    /// A child that it waited for has failed or was dropped.
    Stopped,
    Done,
    Failed,
    /// An earlier sibling that it waited for has failed or was dropped.
    Dropped,
}

/// How an operation ends.
#[derive(Clone, Copy, Debug, PartialEq, Eq)]
pub enum How {
    Done,
    Failed,
}

/// What an operation that has begun waits for.
#[derive(Debug, Drop)]
pub enum Waiting {
    /// Nothing: it is ready at once.
    Nothing,
    /// Its children whose needs interfere with these.
    Part(Needs),
    /// A child of its own.
    Child(OpNumber),
}

/// The numbers that an issue gave, which follow each other.
#[derive(Clone, Copy, Debug, PartialEq, Eq)]
pub struct Issued {
    pub first: OpNumber,
    pub count: u64,
}

impl Stage {
    /// Whether it waits for others.
    pub fn is_idle(self) -> bool
        ensures { result ≡ is_idle self }
    {
        matches!(self, Stage::Waiting | Stage::Parked)
    }

    /// Whether it has begun and hasn't finished.
    pub fn is_in_progress(self) -> bool
        ensures { result ≡ is_in_progress self }
    {
        matches!(self, Stage::Begun | Stage::Parked | Stage::Stopped)
    }

    /// Whether two stages of waiting are the same.
    pub fn waits_as(self, other: Stage) -> bool
        ensures { result ≡ same_stage self other }
    {
        matches!(
            (self, other),
            (Stage::Waiting, Stage::Waiting) | (Stage::Parked, Stage::Parked)
        )
    }
}
