//! The grammar of Regent texts, from the terminals of a text to the plain tree of its program.
#![tactic(auto)]

mod lexing;
mod nesting;
mod symbol;
pub mod theorems;

pub use lexing::terminals;
pub use nesting::first_too_deep;
pub use regent_lex::{Mark, Word};
pub use symbol::{Symbol, Terminal};
