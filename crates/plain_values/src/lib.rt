//! Types that contracts see as plain values: a list over a `Vec`, and a value behind an `Arc`.
//!
//! A `Vec` in a contract brings its capacity and its place in memory, so two vectors with the same
//! items are two values there. Structures whose values contracts compare hold these types instead.
#![tactic(auto)]

mod sequence;
mod shared;
#[cfg(test)]
mod tests;

pub use sequence::Sequence;
pub use shared::Shared;
