//! The operations that make a set of two.

ghost use Rattle.std.specs.Prelude.{◌≡◌};

/// An operation on two sets of points.
#[derive(Clone, Copy, Debug)]
pub enum Operation {
    Union,
    Meet,
    Minus,
}

impl Operation {
    ghost use Rattle.point_sets.specs.Operations.{kept};

    /// Whether the result holds a point that is or isn't in each of the sets.
    pub fn keeps(self, in_left: bool, in_right: bool) -> bool
        ensures { result ≡ kept self in_left in_right }
    {
        match self {
            Operation::Union => in_left || in_right,
            Operation::Meet => in_left && in_right,
            Operation::Minus => in_left && !in_right,
        }
    }
}
