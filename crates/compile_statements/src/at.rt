//! Where a statement stands.

use compile_types::Site;

/// A task, and the line of a statement of its body.
#[derive(Clone, Copy)]
pub struct At<'a> {
    pub site: &'a Site<'a>,
    pub line: u32,
}
