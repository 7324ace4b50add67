//! Runs a job by workers in threads of their own, which share a board.
#![tactic(auto)]

mod run;

pub use run::run_by_workers;
pub use task_hub::Board;
pub use worker_gate::{Gate, OpenGate};
