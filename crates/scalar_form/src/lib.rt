//! Which types are those of scalars: numbers and truths.
#![tactic(auto)]

mod types;

pub use types::{is_scalar_if_said, is_scalar_number, is_scalar_term};
