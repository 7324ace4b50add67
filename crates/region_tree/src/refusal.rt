//! Whether sets may be a partition of a region.

ghost use Rattle.std.specs.Prelude.{◌≡◌, ◌≤◌, ◌<◌, ◌^◌, ℕ, Bool, IfErr, IfSome, OnOk, false};
ghost use Rattle.std.specs.Prelude.{length, true};
ghost use Rattle.plain_values.specs.Points.{has, within};
ghost use Rattle.region_tree.specs.Refusals.{AreWithin, IsOutside, Refuses};
ghost use Rattle.region_tree.specs.Sharing.{AreDisjoint, set_of_colour};

use crate::fault::TreeFault;
use crate::sweep::least_shared;
use point_sets::PointSet;
use std::alloc::Global;

/// Tests the sets of a partition, which is to be disjoint or not.
pub fn test_partition(
    alloc: Global,
    region: &PointSet,
    sets: &[PointSet],
    disjoint: bool,
) -> Result<(), TreeFault>
    requires { length sets.now < 2 ^ 32 }
    ensures within { OnOk result (AreWithin region.now sets.now) }
    ensures apart { OnOk result (disjoint ≡ true → AreDisjoint sets.now) }
    ensures refused { IfErr result (Refuses region.now sets.now disjoint) }
{
    test_within(region, sets)?;
    if disjoint {
        test_disjoint(alloc, region, sets)?;
    }
    Ok(())
}

/// Tests that no set leaves the region.
fn test_within(region: &PointSet, sets: &[PointSet]) -> Result<(), TreeFault>
    requires { length sets.now < 2 ^ 32 }
    ensures within { OnOk result (AreWithin region.now sets.now) }
    ensures refused { (disjoint : Bool) → IfErr result (Refuses region.now sets.now disjoint) }
{
    let count = sets.len() as u32;
    for colour in 0..count {
        if let Some(point) = first_outside(region, &sets[colour as usize]) {
            return Err(TreeFault::NotWithin { colour, point });
        }
    }
    Ok(())
}

/// The first point of a set that the region lacks.
fn first_outside(region: &PointSet, set: &PointSet) -> Option<u32>
    ensures none { result ≡ None → within set.now region.now ≡ true }
    ensures some { IfSome result (IsOutside region.now set.now) }
{
    let mut from = 0;
    while let Some(stretch) = set.stretch_from(from) {
        let end = first_missing(region, stretch.start);
        if end < stretch.end {
            return Some(end);
        }
        from = stretch.end;
    }
    None
}

/// The first point from one on that a set lacks.
fn first_missing(set: &PointSet, from: u32) -> u32
    ensures ahead { from ≤ result }
    ensures before { (z : ℕ) → from ≤ z → z < result → has set.now z ≡ true }
    ensures missing { has set.now result ≡ false }
{
    match set.stretch_from(from) {
        Some(stretch) if stretch.start == from => stretch.end,
        _ => from,
    }
}

/// Tests that no two sets share a point, where none leaves the region.
fn test_disjoint(alloc: Global, region: &PointSet, sets: &[PointSet]) -> Result<(), TreeFault>
    requires few { length sets.now < 2 ^ 32 }
    requires within { AreWithin region.now sets.now }
    ensures apart { OnOk result (AreDisjoint sets.now) }
    ensures refused { IfErr result (Refuses region.now sets.now true) }
{
    let Some(point) = least_shared(alloc, sets)? else {
        return Ok(());
    };
    let a = first_with(sets, 0, point);
    let b = first_with(sets, a + 1, point);
    Err(TreeFault::NotDisjoint { a, b, point })
}

/// The first colour from one on whose set has a point.
fn first_with(sets: &[PointSet], from: u32, point: u32) -> u32
    requires few { length sets.now < 2 ^ 32 }
    requires some { (c : ℕ)
        × (from ≤ c) × (c < length sets.now) × (has (set_of_colour sets.now c) point ≡ true) }
    ensures ahead { from ≤ result }
    ensures below { result < length sets.now }
    ensures found { has (set_of_colour sets.now result) point ≡ true }
    ensures first { (c : ℕ) → from ≤ c → c < result → has (set_of_colour sets.now c) point ≡ false }
{
    let count = sets.len() as u32;
    for colour in from..count {
        if sets[colour as usize].has(point) {
            return colour;
        }
    }
    unreachable!()
}
