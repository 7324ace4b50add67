//! Whether partitions may be made, and roots that are closed.

ghost use Rattle.std.specs.Prelude.{◌≡◌, IfOk};
ghost use Rattle.std.specs.List.{list_all};
ghost use Rattle.plain_values.specs.Points.{within};
ghost use Rattle.machine_terms.specs.Contents.{closed, is_among};
ghost use Rattle.machine_terms.specs.Makes.{are_apart, is_sound};

use machine_terms::{Contents, Root};
use plain_values::Sequence;
use point_sets::PointSet;
use region_tree::{RootId, least_shared};
use std::alloc::{AllocError, Global};

/// Whether sets lie in a region, and are apart where they are said to be. It fails for want of memory alone.
pub fn is_sound(
    alloc: Global,
    parent: &PointSet,
    sets: &[PointSet],
    disjoint: bool,
) -> Result<bool, AllocError>
    ensures { IfOk result (λ sound. sound ≡ is_sound parent.now sets.now disjoint) }
{
    if !lie_within(parent, sets) {
        return Ok(false);
    }
    if disjoint {
        are_apart(alloc, sets)
    } else {
        Ok(true)
    }
}

fn lie_within(parent: &PointSet, sets: &[PointSet]) -> bool
    ensures { result ≡ list_all (λ s. within s parent.now) sets.now }
{
    for set in sets {
        if !set.within(parent) {
            return false;
        }
    }
    true
}

/// Whether no two of these sets share a point.
fn are_apart(alloc: Global, sets: &[PointSet]) -> Result<bool, AllocError>
    ensures { IfOk result (λ apart. apart ≡ are_apart sets.now) }
{
    match least_shared(alloc, sets)? {
        None => Ok(true),
        Some(_) => Ok(false),
    }
}

/// The contents without these roots.
pub fn closed(ids: &[RootId], contents: Contents) -> Contents
    ensures { result ≡ closed ids.now contents }
{
    let Contents { made, roots } = contents;
    let mut kept = roots.into_vec();
    kept.retain(|held| !is_among(ids, held));
    Contents {
        made,
        roots: Sequence::from_vec(kept),
    }
}

fn is_among(ids: &[RootId], held: &Root) -> bool
    ensures { result ≡ is_among ids.now held.now }
{
    for id in ids {
        if held.id.0 == id.0 {
            return true;
        }
    }
    false
}
