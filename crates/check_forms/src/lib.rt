//! Assignments, fills, prints, calls and returns, and the heads of statements with blocks: whether they keep the rules.
#![tactic(auto)]

mod assignments;
mod forms;
mod heads;

pub use assignments::assign;
pub use forms::{call_alone, fill, print, return_any};
pub use heads::{LoopHead, bounds, domain, test, tests};
