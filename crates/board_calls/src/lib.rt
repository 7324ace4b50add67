//! What the calls of a segment that is given back make of the parts of a board's state: which of them may be issued, and
//! how they are. Memory is taken before anything changes; a refusal hands the run back.
#![tactic(auto)]

mod calling;
mod checking;
mod issuing;
mod opening;

pub use calling::{called_by, give_calls};
pub use opening::call;
