//! Privileges that are held on regions, and what they allow (the type system of Regent, SC 2015).
#![tactic(auto)]

mod breach;
mod rights;
#[cfg(test)]
mod tests;

pub use breach::Breach;
pub use constraint_check::{Colour, Facts, Known, Term};
pub use lane_kernels::Op;
pub use regent_tree::{Access, Right, Wanted};
pub use rights::Held;
