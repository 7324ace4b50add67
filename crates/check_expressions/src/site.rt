//! Where a body is checked.

use crate::declared::Declared;
use privilege_types::Held;
use regent_tree::Task;
use std::alloc::Global;

/// A task whose body is checked, in its program, with the privileges that it declares.
#[derive(Drop)]
pub struct Site<'a> {
    pub alloc: Global,
    pub declared: &'a Declared<'a>,
    pub task: &'a Task,
    pub held: Held,
}
