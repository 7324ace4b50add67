//! Whether one region lies within another, or shares no point with it, as far as is known (region
//! trees, OOPSLA 2013).
//!
//! Facts come one by one, and a table is closed at each, so that a question takes no memory. A
//! question is answered with true exactly where the relation is derivable.
#![tactic(auto)]

mod closure;
mod question;
mod raising;
mod row;

pub use closure::Facts;
pub use regent_tree::{Colour, Known, Term};
