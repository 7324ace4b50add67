//! A set of numbers that tells its least one, and takes memory only where room is made.
#![tactic(auto)]

mod least_set;
mod mark;
#[cfg(test)]
mod tests;
mod tidy;

pub use least_set::LeastSet;
