//! Partitions by a field that holds colours.

ghost use Rattle.std.specs.Prelude.{◌≡◌, ◌≤◌, IfOk, length};
ghost use Rattle.regent_tree.specs.Partitions.{by_field_flag, by_field_sets};
ghost use Rattle.partitions.specs.Laws.{ArePartsOf, NoneShared};

use crate::COLOUR_LIMIT;
use crate::links::{Direction, Links};
use point_sets::PointSet;
use std::alloc::{AllocError, Global};

/// `partition(region.f, colours)`: colour `c` has the points whose field is `c`. A point whose
/// number is no colour is in no set.
///
/// `values` has the field's number at each point of the region, by place.
pub fn by_field(
    alloc: Global,
    region: &PointSet,
    values: &[i64],
    colours: u32,
) -> Result<(Vec<PointSet>, bool), AllocError>
    requires counted { length values.now ≡ length region.now }
    requires colours { colours ≤ COLOUR_LIMIT }
    ensures sets { IfOk result (λ r. r.0.items ≡ by_field_sets region.now values.now colours) }
    ensures flag { IfOk result (λ r. r.1 ≡ by_field_flag) }
    ensures parts { IfOk result (λ r. ArePartsOf region.now r.0.items) }
    ensures apart { IfOk result (λ r. NoneShared r.0.items) }
{
    let links = Links::new(alloc, Direction::Backward, region, region, values, false)?;
    let sets = links.targets_of_first(alloc, colours)?;
    Ok((sets, true))
}
