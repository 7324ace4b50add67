//! Sets of points, kept as planes of bits.
#![tactic(auto)]

mod builder;
mod places;
mod plane;
mod windows;
mod words;

pub use builder::PlaneBuilder;
pub use plane::Plane;

/// How many words a plane has at most, from the point 0 on: each point is a number below 64 times as many.
pub const WORD_LIMIT: usize = 65_536;
