//! Sets of points, kept as runs or as planes of bits and seen as rising lists.
#![tactic(auto)]

mod form;
mod operation;
mod point_set;
mod run_set;
mod runs;
mod sweep;

pub use operation::Operation;
pub use point_set::PointSet;
pub use run_set::RunSet;

/// How many points there are: each is a number below it.
pub const POINT_LIMIT: u32 = 4_194_304;
