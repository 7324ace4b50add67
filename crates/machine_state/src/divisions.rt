//! Regions that are divided, by each of the partition operations.

ghost use Rattle.std.specs.Prelude.{◌≡◌, ◌≤◌, IfOk, length, map};
ghost use Rattle.std.specs.List.{list_all};
ghost use Rattle.plain_values.specs.Points.{within};
ghost use Rattle.regent_tree.specs.Partitions.{both_flag, both_sets, by_field_flag, by_field_sets};
ghost use Rattle.regent_tree.specs.Partitions.{either_flag, either_sets, equal_flag, equal_sets};
ghost use Rattle.regent_tree.specs.Partitions.{image_flag, image_sets, minus_flag, minus_sets};
ghost use Rattle.regent_tree.specs.Partitions.{preimage_flag, preimage_sets};
ghost use Rattle.machine_terms.specs.Regions.{lie_in, sets_of};

use machine_terms::{PartitionValue, RegionValue};
use partitions::{COLOUR_LIMIT, both, by_field, either_of, equal, image, preimage, without};
use plain_values::Sequence;
use point_sets::PointSet;
use std::alloc::{AllocError, Global};

/// A region with the sets of a partition, and whether these are said to share no point.
#[derive(Drop)]
pub struct Division {
    pub region: RegionValue,
    pub sets: Sequence<PointSet>,
    pub disjoint: bool,
}

fn divided(
    region: &RegionValue,
    sets: Vec<PointSet>,
    disjoint: bool,
) -> Result<Division, AllocError>
    ensures { IfOk result (λ d. d
        ≡ record { region = region.now; sets = sets.items; disjoint = disjoint }) }
{
    let region = region.copy()?;
    Ok(Division {
        region,
        sets: Sequence::from_vec(sets),
        disjoint,
    })
}

/// The points of each colour.
fn sets_of(alloc: Global, partition: &PartitionValue) -> Result<Vec<PointSet>, AllocError>
    ensures { IfOk result (λ r. r.items ≡ sets_of partition.now) }
{
    let children = partition.children.get();
    let mut sets = Vec::with_capacity(alloc, children.len())?;
    for child in children.as_slice() {
        sets.push(child.points.get().copy()?)?;
    }
    Ok(sets)
}

/// Whether the points of all these are a region's.
fn are_within(children: &[RegionValue], region: &RegionValue) -> bool
    ensures { result ≡ list_all (λ s. within s region.now.points)
        (map (λ (r : RegionValue). r.points) children.now) }
{
    for child in children {
        if !child.points.get().within(region.points.get()) {
            return false;
        }
    }
    true
}

/// Whether the regions of a partition lie in a region of their root.
pub fn lies_in(partition: &PartitionValue, region: &RegionValue) -> bool
    ensures { result ≡ lie_in partition.now.root.0 (sets_of partition.now) region.now }
{
    partition.root.0 == region.root.0 && are_within(partition.children.get().as_slice(), region)
}

/// A region in blocks.
pub fn divide_equally(
    alloc: Global,
    region: &RegionValue,
    colours: u32,
) -> Result<Division, AllocError>
    ensures { IfOk result (λ d. d ≡ record {
      region = region.now;
      sets = equal_sets region.now.points colours;
      disjoint = equal_flag;
    }) }
{
    let (sets, disjoint) = equal(alloc, region.points.get(), colours)?;
    divided(region, sets, disjoint)
}

/// A region by the numbers of a field, one for each of its points.
pub fn divide_by_field(
    alloc: Global,
    region: &RegionValue,
    numbers: &[i64],
    colours: u32,
) -> Result<Division, AllocError>
    requires counted { length numbers.now ≡ length region.now.points }
    requires colours { colours ≤ COLOUR_LIMIT }
    ensures { IfOk result (λ d. d ≡ record {
      region = region.now;
      sets = by_field_sets region.now.points numbers.now colours;
      disjoint = by_field_flag;
    }) }
{
    let (sets, disjoint) = by_field(alloc, region.points.get(), numbers, colours)?;
    divided(region, sets, disjoint)
}

/// A region by what a field names from the points of each colour; there is a number for each point of
/// the region whose field is read.
pub fn divide_by_image(
    alloc: Global,
    region: &RegionValue,
    partition: &PartitionValue,
    read: &RegionValue,
    numbers: &[i64],
    pointers: bool,
) -> Result<Division, AllocError>
    requires { length numbers.now ≡ length read.now.points }
    ensures { IfOk result (λ d. d ≡ record {
      region = region.now;
      sets = image_sets region.now.points (sets_of partition.now) read.now.points numbers.now pointers;
      disjoint = image_flag;
    }) }
{
    let from = sets_of(alloc, partition)?;
    let (points, among) = (region.points.get(), read.points.get());
    let (sets, disjoint) = image(alloc, points, from.as_slice(), among, numbers, pointers)?;
    divided(region, sets, disjoint)
}

/// A region by the points from which a field names those of each colour.
pub fn divide_by_preimage(
    alloc: Global,
    region: &RegionValue,
    partition: &PartitionValue,
    read: &RegionValue,
    numbers: &[i64],
    pointers: bool,
) -> Result<Division, AllocError>
    requires { length numbers.now ≡ length read.now.points }
    ensures { IfOk result (λ d. d ≡ record {
      region = region.now;
      sets = preimage_sets region.now.points (sets_of partition.now) read.now.points numbers.now pointers;
      disjoint = preimage_flag partition.now.disjoint;
    }) }
{
    let to = sets_of(alloc, partition)?;
    let (points, among) = (region.points.get(), read.points.get());
    let flag = partition.disjoint;
    let (sets, disjoint) = preimage(alloc, points, to.as_slice(), among, numbers, pointers, flag)?;
    divided(region, sets, disjoint)
}

/// What two partitions share, colour by colour.
pub fn divide_by_both(
    alloc: Global,
    p: &PartitionValue,
    q: &PartitionValue,
    region: &RegionValue,
) -> Result<Division, AllocError>
    ensures { IfOk result (λ d. d ≡ record {
      region = region.now;
      sets = both_sets (sets_of p.now) (sets_of q.now);
      disjoint = both_flag p.now.disjoint q.now.disjoint;
    }) }
{
    let (ps, qs) = (sets_of(alloc, p)?, sets_of(alloc, q)?);
    let flag = p.disjoint || q.disjoint;
    let (sets, disjoint) = both(alloc, ps.as_slice(), qs.as_slice(), flag)?;
    divided(region, sets, disjoint)
}

/// What either of two partitions has, colour by colour.
pub fn divide_by_either(
    alloc: Global,
    p: &PartitionValue,
    q: &PartitionValue,
    region: &RegionValue,
) -> Result<Division, AllocError>
    ensures { IfOk result (λ d. d ≡ record {
      region = region.now;
      sets = either_sets (sets_of p.now) (sets_of q.now);
      disjoint = either_flag;
    }) }
{
    let (ps, qs) = (sets_of(alloc, p)?, sets_of(alloc, q)?);
    let (sets, disjoint) = either_of(alloc, ps.as_slice(), qs.as_slice())?;
    divided(region, sets, disjoint)
}

/// What one partition has and another lacks, colour by colour.
pub fn divide_without(
    alloc: Global,
    p: &PartitionValue,
    q: &PartitionValue,
    region: &RegionValue,
) -> Result<Division, AllocError>
    ensures { IfOk result (λ d. d ≡ record {
      region = region.now;
      sets = minus_sets (sets_of p.now) (sets_of q.now);
      disjoint = minus_flag p.now.disjoint;
    }) }
{
    let (ps, qs) = (sets_of(alloc, p)?, sets_of(alloc, q)?);
    let (sets, disjoint) = without(alloc, ps.as_slice(), qs.as_slice(), p.disjoint)?;
    divided(region, sets, disjoint)
}
