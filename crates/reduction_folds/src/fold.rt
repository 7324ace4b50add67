//! One reduction.

ghost use Rattle.std.specs.Prelude.{◌≡◌, slice_get};
ghost use Rattle.reduction_folds.specs.Folds.{folded_at, number_at};

use lane_kernels::{Op, Width};
use plain_values::Sequence;
use point_sets::PointSet;

/// A number for each of some points, which is folded into what stands there.
#[derive(Debug, Drop)]
pub(crate) struct Fold {
    pub(crate) op: Op,
    pub(crate) points: PointSet,
    pub(crate) values: Sequence<i64>,
}

impl Fold {
    /// What it makes of the number at a point.
    pub(crate) fn at(&self, width: Width, point: u32, value: i64) -> i64
        ensures { result ≡ folded_at width self.now point value }
    {
        match self.number_at(point) {
            Some(number) => self.op.apply(width, value, number),
            None => value,
        }
    }

    fn number_at(&self, point: u32) -> Option<i64>
        ensures { result ≡ number_at self.now point }
    {
        match self.points.place_of(point) {
            Some(place) => number_at(self.values.as_slice(), place),
            None => None,
        }
    }
}

/// The number at a place of a list.
pub(crate) fn number_at(values: &[i64], place: u32) -> Option<i64>
    ensures { result ≡ slice_get values.now place }
{
    values.get(place as usize).copied()
}
