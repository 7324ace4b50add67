//! Fields of roots that are lent: a part holds the list of their numbers.

ghost use Rattle.std.specs.Prelude.{◌≡◌};
ghost use Rattle.plain_store.specs.Keys.{is_lent, is_loan_of};

use region_tree::RootId;

/// A field of a root of which the list of numbers, as many as the root has points, stands in a part
/// that is held.
#[derive(Clone, Copy)]
pub struct Loan {
    pub root: RootId,
    pub field: u8,
    pub count: usize,
}

impl Loan {
    /// Whether a field of a root is the one that is lent.
    pub fn is_of(&self, root: RootId, field: u8) -> bool
        ensures { result ≡ is_loan_of root.0 field self.now }
    {
        self.root.0 == root.0 && self.field == field
    }
}

/// Whether a field of a root is lent.
pub fn is_lent(loans: &[Loan], root: RootId, field: u8) -> bool
    ensures { result ≡ is_lent loans.now root.0 field }
{
    loans.iter().any(|loan| loan.is_of(root, field))
}
