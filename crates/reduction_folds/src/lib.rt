//! Reductions that were given and are not folded yet (reduction instances: Legion, SC 2012).
//!
//! `specs/Folds` says what they make of numbers.
#![tactic(auto)]

mod fold;
mod pending;
#[cfg(test)]
mod tests;

pub use pending::Pending;
