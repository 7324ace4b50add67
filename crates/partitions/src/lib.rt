//! Partition operations, after Dependent Partitioning (OOPSLA 2016).
//!
//! Each call makes the sets of a partition, colour by colour, and says whether no two of them share
//! a point.
#![tactic(auto)]

mod equal_sizes;
mod fields;
mod images;
mod links;
mod listing;
mod pairwise;

pub use equal_sizes::equal;
pub use fields::by_field;
pub use images::{image, preimage};
pub use pairwise::{both, either_of, without};

/// How many colours a partition may have at most.
pub const COLOUR_LIMIT: u32 = 65_536;
