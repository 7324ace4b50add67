//! What a board is made of: operations with their claims. The definitions say what each step of a journal makes
//! of a board, and what a board that has finished comes to.
#![tactic(auto)]

mod claim;
mod extent;
mod laws;
mod operation;

pub use claim::Claim;
pub use extent::Extent;
pub use laws::example_comes_out;
pub use operation::{Activity, Ending, Operation, Said, Wait};
