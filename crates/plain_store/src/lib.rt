//! What the roots hold in a run in order: parts go out of it and come back, roots are made and closed.
#![tactic(auto)]

mod columns;
mod contents;
mod copies;
mod holder;
mod loan;
mod making;
mod opening;
mod requiring;
mod returns;
mod roots;

pub use contents::no_contents;
pub use copies::fetch_part;
pub use holder::Holder;
pub use loan::Loan;
pub use making::{closed, is_sound};
pub use opening::needs_on;
pub use requiring::requirements_on;
pub use returns::give_parts;
pub use roots::{make_partition, make_root};
