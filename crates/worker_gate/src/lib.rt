//! Workers: at a desk each claims what is ready, runs its segment and gives the run back, until all is over. Its
//! segments go through a gate.
#![tactic(auto)]

mod gate;
mod pair;
mod worker;

pub use gate::{Gate, OpenGate};
pub use pair::PairGate;
pub use worker::work;
