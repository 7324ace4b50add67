//! What a segment gives.

use crate::frame::Frame;
use crate::value::{RegionValue, Value};
use index_spaces::Ispace;
use plain_values::Sequence;
use point_sets::PointSet;
use regent_tree::Fault;
use region_tree::{Part, RootId};

/// A call that is to be issued.
#[derive(Drop)]
pub struct CallOut {
    pub task: u32,
    pub args: Sequence<Value>,
}

/// What is to be made: a root, by its index space and the place of its field space in the code, or a
/// partition of a region, by the points of each colour.
#[derive(Drop)]
pub enum Made {
    Root {
        space: Ispace,
        fields: u32,
    },
    Partition {
        region: RegionValue,
        sets: Sequence<PointSet>,
        disjoint: bool,
    },
}

/// Why a segment ends.
#[derive(Drop)]
pub enum Yield {
    /// Calls are to be issued.
    Calls(Sequence<CallOut>),
    /// A part for a field of a root is to be copied out; the instruction is then done again.
    Want { root: RootId, field: u8 },
    /// The value of a child is to be put into each slot in which the child is pending.
    Await(u64),
    /// A root or partition is to be made, and to be pushed.
    Make(Made),
    /// The task instance has ended, with a value or none.
    End(Option<i64>),
    Fault(Fault),
    /// What no compiled program does: a wrong kind of value, a place or slot that isn't there, or a touch
    /// outside the needs.
    MachineFault,
}

/// What a segment leaves. There is no frame where the task instance ended or faulted.
#[derive(Drop)]
pub struct After {
    pub frame: Option<Frame>,
    pub parts: Sequence<Part>,
    pub text: Sequence<u8>,
    pub ends: Yield,
}
