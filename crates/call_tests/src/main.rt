//! Sources and sinks, words, pictures, and whole calls, over sources and sinks that fail.
//!
//! They stand in a crate of their own so that a crate is proved once, without its tests.
#![tactic(auto)]

#[cfg(test)]
mod calls;
#[cfg(test)]
mod ends;
#[cfg(test)]
mod pictures;
#[cfg(test)]
mod sinks;
#[cfg(test)]
mod sources;
#[cfg(test)]
mod words;

/// The tests alone are run: the program itself does nothing.
fn main() {}
