//! Index spaces: the points 0 to n - 1.
#![tactic(auto)]

mod ispace;

pub use ispace::{Ispace, SpaceFault};
