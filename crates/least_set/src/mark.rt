//! What is known of a number.

ghost use Rattle.std.specs.Prelude.{◌≡◌};
ghost use Rattle.least_set.specs.Marks.{is_absent, is_present};

/// Whether a number is in the set, and whether it stands in the heap.
#[derive(Clone, Copy, Debug, PartialEq, Eq)]
pub enum Mark {
    /// In neither.
    Absent,
    /// It was taken out of the set and still stands in the heap.
    Left,
    /// In both.
    Present,
}

impl Mark {
    pub fn is_present(self) -> bool
        ensures { result ≡ is_present self }
    {
        matches!(self, Mark::Present)
    }

    pub fn is_absent(self) -> bool
        ensures { result ≡ is_absent self }
    {
        matches!(self, Mark::Absent)
    }
}
