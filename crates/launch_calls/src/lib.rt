//! The calls of an index launch: what it hands over at each colour, and round by round the calls up to the first fault.
#![tactic(auto)]

mod handed;
mod rounds;

pub use handed::{are_held, size_in};
pub use rounds::{Issued, Rounds};
