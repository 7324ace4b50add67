//! The compiler's part on statements: their code, put at the end of a body, with the names in scope and what is
//! known of regions.
#![tactic(auto)]

mod at;
mod blocks;
mod branches;
mod heads;
mod launches;
mod loops;
mod scope;
mod shapes;
mod variable_types;
mod variables;

pub use at::At;
pub use blocks::block;
pub use scope::{Scope, Scoped};
pub use shapes::Shapes;
pub use variables::{bind, know};
