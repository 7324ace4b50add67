//! The state of a board: regions, what the roots hold, operations, and what waits for what. Each call is what a step
//! of a journal makes of it.
#![tactic(auto)]

mod calling;
mod claiming;
mod closing;
mod copying;
mod giving;
mod making;
mod opening;
mod owing;
mod parking;
mod parts;
mod stages;
mod state;
mod telling;

pub use owing::owed_for;
pub use state::BoardState;
