//! Whether a program is within its limits: the first thing, in the order of the text, of which
//! there are too many.
#![tactic(auto)]

mod expressions;
mod program;
mod statements;

pub use program::first_excess;
