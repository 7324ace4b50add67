//! A task instance with the parts that it holds.

use crate::loan::Loan;
use machine_terms::Instance;
use plain_values::Sequence;

/// A task instance with its parts, and the fields that are lent to parts: what the instance keeps of
/// the roots lacks the numbers of these.
#[derive(Drop)]
pub struct Holder {
    pub instance: Instance,
    pub loans: Sequence<Loan>,
}
