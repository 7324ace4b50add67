//! From the bytes of a text to the tree of a program.
#![tactic(auto)]

mod fault;
mod items;
mod reading;
pub mod theorems;

pub use fault::ReadFault;
pub use reading::read;
pub use regent_tree::Counted;
