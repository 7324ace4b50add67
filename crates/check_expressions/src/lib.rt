//! Expressions and calls in the body of a task: their types, and the first rule that is breached.
#![tactic(auto)]

mod accesses;
mod calls;
mod declared;
mod expressions;
mod privileges;
mod rights;
mod scope;
mod site;
pub mod spots;

pub use accesses::{element_step, field_step};
pub use calls::call;
pub use declared::Declared;
pub use expressions::{arguments, expression, stepped, type_of_name, walk};
pub use privileges::{lacks_all, may_do, misuses_field, misuses_region_field};
pub use rights::{held_by, rights_declared};
pub use scope::{Scope, Scoped};
pub use site::Site;
