//! The compiler's part on expressions: the code of expressions and accesses, put at the end of a body.
#![tactic(auto)]

mod body;
mod expressions;
mod reached;
mod single;

pub use body::Body;
pub use expressions::{access, argument, arguments, called, expression};
pub use reached::Reached;
pub use single::{converted, field_place, one, space_in};
