//! Statements and blocks, read from the terminals of a text.
#![tactic(auto)]

mod blocks;
mod forms;
mod ranges;

pub use blocks::block;
