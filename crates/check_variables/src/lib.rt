//! `var` statements, and what variables begin with: whether they keep the rules.
#![tactic(auto)]

mod beginnings;
mod fields;
mod initializers;
mod named;
mod partition_initializers;
mod variables;

pub use fields::{is_unknown_region_field, known_field};
pub use variables::{bind, know, variable};
