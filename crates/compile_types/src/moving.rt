//! What a pointer's positions become where it is converted.

ghost use Rattle.std.specs.Prelude.{◌≡◌, IfOk, map};
ghost use Rattle.regent_tree.specs.Typing.{has_wild, least_above, position_of, positions, reaches_of};
ghost use Rattle.compile_types.specs.Positions.{position_in};

use constraint_check::Facts;
use plain_values::Sequence;
use regent_tree::{Reach, StaticType, Term};
use static_types::has_wild;
use std::alloc::{AllocError, Global};

/// The least position, from 1, of a region in a list within which a region lies, or 0.
fn least_above(facts: &Facts, region: &Term, targets: &[Reach]) -> usize
    ensures { result ≡ least_above facts.now region.now 0 targets.now }
{
    for (place, target) in targets.iter().enumerate() {
        if let Some(target) = target
            && facts.subregion(region, target)
        {
            return place + 1;
        }
    }
    0
}

/// The position that a region of a pointer's list has in another list. One that passes 8 bits counts as a
/// want of memory.
fn position_in(facts: &Facts, region: &Reach, targets: &[Reach]) -> Result<u8, AllocError>
    ensures { IfOk result (λ p. p ≡ position_in facts.now targets.now region.now) }
{
    let Some(region) = region else {
        return Ok(0);
    };
    if has_wild(targets) {
        return Ok(0);
    }
    match u8::try_from(least_above(facts, region, targets)) {
        Ok(position) => Ok(position),
        Err(_) => Err(AllocError),
    }
}

fn all_positions(
    alloc: Global,
    facts: &Facts,
    regions: &[Reach],
    targets: &[Reach],
) -> Result<Sequence<u8>, AllocError>
    ensures { IfOk result (λ places. places ≡ map (position_in facts.now targets.now) regions.now) }
{
    let mut places = Sequence::new(alloc);
    for region in regions {
        let place = position_in(facts, region, targets)?;
        places.push(place)?;
    }
    Ok(places)
}

/// The position that each region of a pointer type has in another list.
pub fn positions(
    alloc: Global,
    facts: &Facts,
    from: &StaticType,
    targets: &[Reach],
) -> Result<Sequence<u8>, AllocError>
    ensures { IfOk result (λ places. places ≡ positions facts.now (reaches_of from.now) targets.now) }
{
    match from {
        StaticType::Pointer { regions, .. } => {
            all_positions(alloc, facts, regions.as_slice(), targets)
        }
        _ => Ok(Sequence::new(alloc)),
    }
}
