//! Tests of boards, gates, seats, workers in threads, and jobs that they run.
//!
//! They are in a crate of their own so that a crate is proved once, without its tests.
#![tactic(auto)]

#[cfg(test)]
mod boards;
#[cfg(test)]
mod gates;
#[cfg(test)]
mod jobs;
#[cfg(test)]
mod looks;
#[cfg(test)]
mod parallel;
#[cfg(test)]
mod seats;
#[cfg(test)]
mod workers;

/// The tests alone are run: the program itself does nothing.
fn main() {}
