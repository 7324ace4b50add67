//! The sample program: a text that is generated for a number of colours.
#![tactic(auto)]

#[cfg(test)]
mod tests;
mod text;

pub use text::sample;
