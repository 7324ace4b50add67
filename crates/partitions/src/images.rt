//! Partitions through a field that points from one region to another.

ghost use Rattle.std.specs.Prelude.{◌≡◌, IfOk, length};
ghost use Rattle.regent_tree.specs.Partitions.{image_flag, image_sets};
ghost use Rattle.regent_tree.specs.Partitions.{preimage_flag, preimage_sets};
ghost use Rattle.partitions.specs.Laws.{ArePartsOf, NoneShared};

use crate::links::{Direction, Links};
use point_sets::PointSet;
use std::alloc::{AllocError, Global};

/// `image(parent, p, region.f)`: colour `c` has the points of the parent that the field names at
/// some point of `p[c]`.
///
/// `sets` are those of `p`, within the region; `values` has the field's number at each point of the
/// region, by place. `pointers` says that the numbers are kept pointers: one below 0 is null, any
/// other stands for the point with its number modulo 2^32.
pub fn image(
    alloc: Global,
    parent: &PointSet,
    sets: &[PointSet],
    region: &PointSet,
    values: &[i64],
    pointers: bool,
) -> Result<(Vec<PointSet>, bool), AllocError>
    requires counted { length values.now ≡ length region.now }
    ensures sets { IfOk result (λ r.
        r.0.items ≡ image_sets parent.now sets.now region.now values.now pointers) }
    ensures flag { IfOk result (λ r. r.1 ≡ image_flag) }
    ensures parts { IfOk result (λ r. ArePartsOf parent.now r.0.items) }
{
    let links = Links::new(alloc, Direction::Forward, parent, region, values, pointers)?;
    let images = links.targets_of_each(alloc, sets)?;
    Ok((images, false))
}

/// `preimage(parent, p, region.f)`: colour `c` has the points of the parent whose field names a
/// point of `p[c]`.
///
/// `sets` and `disjoint` are those of `p`. The parent is within the region; `values` has the
/// field's number at each point of the region, by place, read as `pointers` says (see `image`).
pub fn preimage(
    alloc: Global,
    parent: &PointSet,
    sets: &[PointSet],
    region: &PointSet,
    values: &[i64],
    pointers: bool,
    disjoint: bool,
) -> Result<(Vec<PointSet>, bool), AllocError>
    requires counted { length values.now ≡ length region.now }
    ensures sets { IfOk result (λ r.
        r.0.items ≡ preimage_sets parent.now sets.now region.now values.now pointers) }
    ensures flag { IfOk result (λ r. r.1 ≡ preimage_flag disjoint) }
    ensures parts { IfOk result (λ r. ArePartsOf parent.now r.0.items) }
    ensures apart { NoneShared sets.now → IfOk result (λ r. NoneShared r.0.items) }
{
    let links = Links::new(alloc, Direction::Backward, parent, region, values, pointers)?;
    let preimages = links.targets_of_each(alloc, sets)?;
    Ok((preimages, disjoint))
}
