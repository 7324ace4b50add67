//! What a call may not do.

/// The place of what a call wants and is not allowed.
#[derive(Clone, Copy, Debug, PartialEq, Eq)]
pub struct Breach {
    pub at: usize,
}
