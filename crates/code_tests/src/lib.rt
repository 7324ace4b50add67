//! Each public call of task_code, compile_tables, plain_run and run_report with memory at hand.
//!
//! They stand in a crate of their own so that a crate is proved once, without its tests.
#![tactic(auto)]

#[cfg(test)]
mod jobs;
#[cfg(test)]
mod needs;
#[cfg(test)]
mod reports;
#[cfg(test)]
mod runs;
#[cfg(test)]
mod segments;
