//! The compiler's tables: the parts of a print, the slots that a body uses, a task's declared needs, and a
//! program's field spaces.
#![tactic(auto)]

mod needs;
mod parts;
mod spaces;
mod used;

pub use needs::declared_needs;
pub use parts::parts_of;
pub use spaces::{kind_said, spaces_of_program};
pub use used::used_slots;
