//! Casts of numbers to pointers.

ghost use Rattle.std.specs.Prelude.{◌≡◌, [], ◌∷◌, ℕ, ℤ, IfOk};
ghost use Rattle.std.specs.Prelude.{List, None, Some, suc};
ghost use Rattle.regent_tree.specs.Values.{Region, kept_target};
ghost use Rattle.regent_tree.specs.Values.{point_target, target_kept};
ghost use Rattle.machine_state.specs.Casts.{cast_from, number_to_cast};
ghost use Rattle.machine_terms.specs.Pointers.{plain_region, point};
ghost use Rattle.machine_terms.specs.Pointers.{regions_in};

use crate::pointers::{Pointer, held_point, region_in};
use crate::slots::Slots;
use machine_terms::RegionValue;
use std::alloc::AllocError;

/// The number that is kept of the pointer to a point through the region at a place of a list. No list
/// in memory is as long as positions go.
fn kept_at(point: u32, place: usize) -> Result<i64, AllocError>
    ensures { IfOk result (λ z. z ≡ kept_target (point_target point (suc place))) }
{
    if place >= 0x7fff_ffff {
        return Err(AllocError);
    }
    let position = place as u32 + 1;
    Ok(Pointer { point, position }.number())
}

/// What a cast has found behind another region, whose place is given.
fn cast_on(
    found: Option<i64>,
    place: usize,
    region: &RegionValue,
    number: i64,
) -> Result<Option<i64>, AllocError>
    ensures { IfOk result (λ r. (rest : List Region)
        → cast_from found place (Some (plain_region region.now ∷ rest)) number
        ≡ cast_from r (suc place) (Some rest) number) }
{
    if found.is_some() {
        return Ok(found);
    }
    match held_point(region.points.get(), number) {
        Some(point) => Ok(Some(kept_at(point, place)?)),
        None => Ok(None),
    }
}

/// The number that is kept of the pointer to a number's point through the first region of some slots
/// that holds it; None where a slot has no region.
#[tactic(auto, using(crate::proofs::Casting::cast_step))]
pub fn cast_to(slots: &Slots, regions: &[u32], number: i64) -> Result<Option<i64>, AllocError>
    ensures { IfOk result (λ r. r ≡ cast_from None 0 (regions_in slots.now regions.now) number) }
{
    let mut found = None;
    for (place, slot) in regions.iter().enumerate() {
        let Some(region) = region_in(slots, *slot) else {
            return Ok(None);
        };
        found = cast_on(found, place, region, number)?;
    }
    Ok(Some(found_or_null(found)))
}

/// The number that is kept where a cast is over.
fn found_or_null(found: Option<i64>) -> i64
    ensures { (place : ℕ) (z : ℤ) → cast_from found place (Some []) z ≡ Some result }
{
    match found {
        Some(kept) => kept,
        None => -1,
    }
}

/// The number that a cast of a kept pointer casts.
pub fn number_to_cast(kept: i64) -> i64
    ensures { result ≡ number_to_cast (target_kept kept) }
{
    match Pointer::kept(kept) {
        Some(p) => i64::from(p.point),
        None => -1,
    }
}
