//! Operations of a board: task instances that were called.

use crate::claim::Claim;
use machine_terms::{Before, Frame};
use physical_instances::Fill;
use plain_values::{Sequence, Shared};
use regent_tree::Fault;
use region_tree::{OpNumber, Part, RootId};

/// What an operation waits for, or waited for last: for its beginning, for nothing, for a part of a root's field,
/// or for the value of a child, by its place among the children.
#[derive(Clone, Copy, Debug, PartialEq, Eq)]
pub enum Wait {
    Beginning,
    Nothing,
    Part { root: RootId, field: u8 },
    Child(u64),
}

/// How an operation's own work has ended: with a value or none, at a fault, or broken.
#[derive(Debug, PartialEq, Eq, Drop)]
pub enum Ending {
    Value(Option<i64>),
    Fault(Fault),
    Broken,
}

/// What an operation does by itself. Whether an idle one waits, is stopped or was dropped is kept with what waits
/// for what.
#[derive(Drop)]
pub enum Activity {
    Idle,
    /// It is claimed, and the part that it wanted, if any, is being filled.
    Filling {
        claim: Claim,
        fill: Option<Fill>,
    },
    /// It is claimed, and a segment is run from this.
    Out {
        claim: Claim,
        before: Shared<Before>,
    },
    /// Its own work has ended, maybe before that of its children.
    Closing(Ending),
}

/// What an operation has printed, and how many children it had called before.
#[derive(Drop)]
pub struct Said {
    pub children: u64,
    pub text: Sequence<u8>,
}

/// A task instance: who called it and whom it calls, in order, its frame and the parts that it holds, what it
/// has printed, what it waits for and what it does. When its own work has ended, its frame stands for the roots that it
/// made: they are closed when it is over, and main's are what the outcome shows.
#[derive(Drop)]
pub struct Operation {
    pub parent: OpNumber,
    pub children: Sequence<OpNumber>,
    pub frame: Frame,
    pub parts: Sequence<Part>,
    pub said: Sequence<Said>,
    pub wait: Wait,
    pub activity: Activity,
}
