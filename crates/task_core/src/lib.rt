//! Boards: the state that one lock keeps. Tasks are claimed, filled, run elsewhere and given back; a board is what its
//! own journal leads to for its own job.
#![tactic(auto)]

mod answers;
mod board;
mod claiming;
mod copying;
mod desk;
mod finishing;
mod giving;
mod opening;

pub use answers::{Copied, Given};
pub use board::Board;
pub use board_terms::Claim;
pub use desk::{Desk, Work};
pub use run_journal::{Entry, StepKind};
