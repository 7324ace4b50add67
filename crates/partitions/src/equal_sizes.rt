//! Partitions in parts of equal size.

ghost use Rattle.std.specs.Prelude.{◌≡◌, ◌*◌, ◌/◌, ◌<◌, ◌≤◌, IfOk, length};
ghost use Rattle.regent_tree.specs.Partitions.{equal_flag, equal_part, equal_sets};
ghost use Rattle.partitions.specs.Laws.{ArePartsOf, NoneShared};

use crate::listing::listed;
use point_sets::PointSet;
use std::alloc::{AllocError, Global};

/// `partition(equal, region, colours)`: of `m` points and `n` colours, colour `c` has the points at
/// the places floor(m*c/n) to floor(m*(c+1)/n) - 1.
pub fn equal(
    alloc: Global,
    region: &PointSet,
    colours: u32,
) -> Result<(Vec<PointSet>, bool), AllocError>
    ensures sets { IfOk result (λ r. r.0.items ≡ equal_sets region.now colours) }
    ensures flag { IfOk result (λ r. r.1 ≡ equal_flag) }
    ensures parts { IfOk result (λ r. ArePartsOf region.now r.0.items) }
    ensures apart { IfOk result (λ r. NoneShared r.0.items) }
{
    let count = region.len();
    let points = listed(alloc, region)?;
    let mut sets = Vec::with_capacity(alloc, colours as usize)?;
    for colour in 0..colours {
        let first = first_place(count, colour, colours);
        let end = first_place(count, colour + 1, colours);
        sets.push(PointSet::from_sorted(alloc, &points[first..end])?)?;
    }
    Ok((sets, true))
}

/// The place where the part of a colour begins, of so many points.
fn first_place(count: u32, colour: u32, colours: u32) -> usize
    requires some { 0 < colours }
    requires upto { colour ≤ colours }
    ensures value { result ≡ count * colour / colours }
    ensures bound { result ≤ count }
{
    (u64::from(count) * u64::from(colour) / u64::from(colours)) as usize
}
