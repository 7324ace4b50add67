//! Between sets and lists of points.

ghost use Rattle.std.specs.Prelude.{◌≡◌, ◌<◌, All, IfOk};
ghost use Rattle.plain_values.specs.Points.{IsPoints};
ghost use Rattle.point_sets.specs.declared.TheConstants.{POINT_LIMIT};
ghost use Rattle.partitions.specs.Links.{set_of};

use point_sets::PointSet;
use std::alloc::{AllocError, Global};

/// Says of a set what every set is: a rising list of points.
pub fn know_points(set: &PointSet)
    ensures { IsPoints POINT_LIMIT set.now }
{
    let _ = set.len();
}

/// The points of a set, rising.
pub fn listed(alloc: Global, set: &PointSet) -> Result<Vec<u32>, AllocError>
    ensures value { IfOk result (λ r. r.items ≡ set.now) }
    ensures points { IsPoints POINT_LIMIT set.now }
{
    let count = set.len();
    let mut points = Vec::with_capacity(alloc, count as usize)?;
    for place in 0..count {
        if let Some(point) = set.at(place) {
            points.push(point)?;
        }
    }
    Ok(points)
}

/// The set of the points of a list, which may have them in any order and more than once.
pub fn gathered(alloc: Global, mut points: Vec<u32>) -> Result<PointSet, AllocError>
    requires { All (λ x. x < POINT_LIMIT) points.items }
    ensures { IfOk result (λ r. r ≡ set_of points.items) }
{
    points.sort_unstable();
    points.dedup();
    PointSet::from_sorted(alloc, points.as_slice())
}
