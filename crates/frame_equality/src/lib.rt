//! Whether segments are run from the same: code, frames, and parts of regions' fields.
#![tactic(auto)]

mod befores;
mod frames;
mod parts;
mod same;
mod values;

pub use befores::is_same_before;
