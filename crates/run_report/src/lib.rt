//! The texts of a run: the final contents of its entry task's roots, and the line of a fault.
//!
//! `specs/Dumps` and `specs/FaultLines` define them. Each line ends with a line feed.
#![tactic(auto)]

mod dump;
mod fault;
mod fitting;
mod values;

pub use dump::dump_text;
pub use fault::fault_text;
pub use fitting::fits_spaces;
