//! Items but for the bodies of tasks, read from the terminals of a text: imports, aliases, field
//! spaces, the heads of tasks, and start items.
#![tactic(auto)]

mod field_spaces;
mod forms;
mod parameters;
mod task_clauses;
mod task_heads;

pub use field_spaces::field_space;
pub use forms::{alias, import, start_item};
pub use task_heads::{TaskHead, task_head};
