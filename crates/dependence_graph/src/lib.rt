//! What waits for what among the operations of a board, and what is ready.
#![tactic(auto)]

mod awaited;
mod failing;
mod finishing;
mod graph;
mod issuing;
mod knot;
mod knots;
mod laws;
mod link;
mod linking;
mod parking;
mod stage;

pub use graph::Graph;
pub use laws::failures_reach_all;
pub use stage::{How, Issued, Stage, Waiting};
