//! Statements without blocks, read from the terminals of a text.
#![tactic(auto)]

mod initializers;
mod simple;

pub use simple::{
    assertion, assignment, comes_assert, comes_print_by, filling, printing, printing_by, task_call,
    variable,
};
