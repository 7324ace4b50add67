//! What the items of a program declare, names that are given twice, and the start.
#![tactic(auto)]

mod clauses;
mod declarations;
mod entry;
mod halt;
mod repeats;

pub use declarations::{check_declaration, check_declarations};
pub use entry::{check_entry, input_widths};
pub use halt::{Halt, halt_on};
pub use repeats::{check_names, check_names_within};
