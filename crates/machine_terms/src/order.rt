//! A run in order: what the roots hold, and a task instance between two of its segments.

use crate::frame::Frame;
use plain_values::Sequence;
use regent_tree::{Fault, RootImage};
use region_tree::{Part, Required, RootId};

/// A root that was made and isn't closed, with a number for each field and point.
#[derive(Drop)]
pub struct Root {
    pub id: RootId,
    pub image: RootImage,
}

/// What the roots hold, and how many roots were made so far in the run: the next one has that number.
#[derive(Drop)]
pub struct Contents {
    pub made: u64,
    pub roots: Sequence<Root>,
}

/// A task instance between two segments: its frame and its parts, what the roots hold, the values of
/// the children that it called, what it needs with the points, and the text so far.
#[derive(Drop)]
pub struct Instance {
    pub frame: Frame,
    pub parts: Sequence<Part>,
    pub contents: Contents,
    pub results: Sequence<i64>,
    pub needs: Sequence<Required>,
    pub text: Sequence<u8>,
}

/// How an instance ends.
#[derive(Drop)]
pub enum Ended {
    /// With a value or none, the roots that it made, and what the roots hold.
    CameBack {
        value: Option<i64>,
        own: Sequence<RootId>,
        contents: Contents,
        text: Sequence<u8>,
    },
    /// With the whole run: by a fault, or broken.
    Broke {
        fault: Option<Fault>,
        text: Sequence<u8>,
    },
}

/// What an instance comes to behind a segment: it goes on with another one, or is over.
#[derive(Drop)]
pub enum Resumed {
    GoesOn(Instance),
    IsOver(Ended),
}
