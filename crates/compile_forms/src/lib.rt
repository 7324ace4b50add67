//! The compiler's part on statements in which no block stands: initializers of variables, assignments, fills,
//! prints, calls and the like, put at the end of a body.
#![tactic(auto)]

mod assignments;
mod beginnings;
mod fields;
mod fills;
mod folds;
mod forms;
mod initializers;
mod kept;

pub use forms::without_block;
pub use initializers::{initializer, parent_of};
pub use kept::{keeps, put_call};
