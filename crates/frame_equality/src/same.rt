//! Values that can be compared.

ghost use Rattle.std.specs.Prelude.{◌≡◌, ◌↔◌, IsTrue};

use point_sets::PointSet;

/// Values that are compared part by part.
pub trait Same: Drop {
    /// Whether two are the same.
    fn is_same(&self, other: &Self) -> bool
        ensures { IsTrue result ↔ (self.now ≡ other.now) };
}

/// Whether two lists hold the same values in the same order.
pub fn are_same<T: Same>(values: &[T], others: &[T]) -> bool
    ensures { IsTrue result ↔ (values.now ≡ others.now) }
{
    if values.len() != others.len() {
        return false;
    }
    for place in 0..values.len() {
        if !values[place].is_same(&others[place]) {
            return false;
        }
    }
    true
}

/// Whether two sets hold the same points.
#[tactic(auto, using(crate::proofs::Points::same_points))]
pub fn are_same_points(points: &PointSet, others: &PointSet) -> bool
    ensures { IsTrue result ↔ (points.now ≡ others.now) }
{
    points.len() == others.len() && points.within(others) && others.within(points)
}
