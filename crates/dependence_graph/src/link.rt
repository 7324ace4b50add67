//! How an operation that ends finds those that wait for it.

use plain_values::Sequence;

/// What is kept beside an operation: the later siblings that wait for it, by their numbers, and how many of
/// those that it waits for itself it has seen Done.
#[derive(Debug, Drop)]
pub struct Link {
    pub waiters: Sequence<usize>,
    pub passed: usize,
}
