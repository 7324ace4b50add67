//! Look-ups by name: the tasks, field spaces and aliases of a program, and the names in scope.
#![tactic(auto)]

mod copies;
mod names;
mod params;
mod table;
mod tables;

pub use copies::copy_name;
pub use names::Names;
pub use params::{place_in, place_or_len};
pub use tables::Tables;
