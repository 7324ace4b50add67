//! Runs a job by workers or in order: either way its outcome is that of the run in order.
#![tactic(auto)]

mod origin;
mod ran;
mod run;

pub use origin::{Origin, Settled, settle_run};
pub use ran::Ran;
pub use run::run_job;
pub use worker_run::{Gate, OpenGate};
