//! What a launch goes over, and what it hands over to its calls.

ghost use Rattle.std.specs.Prelude.{◌≡◌, IfNone, IfOk, IfSome, Some, slice_get};
ghost use Rattle.launch_calls.specs.Rounds.{IsNoSpace};
ghost use Rattle.machine_terms.specs.declared.value.Value.TheVariants.{Space};
ghost use Rattle.std.specs.List.{list_all};
ghost use Rattle.machine_terms.specs.Launches.{argument, arguments, child_in, is_held};
ghost use Rattle.machine_terms.specs.Regions.{partition_in};

use index_launch::{LaunchArg, PointArg};
use machine_state::{Slots, partition_in};
use machine_terms::Value;
use plain_values::Sequence;
use std::alloc::{AllocError, Global};

/// How many points the index space in a slot has.
pub fn size_in(slots: &Slots, slot: u32) -> Option<u32>
    ensures some { IfSome result (λ n. slice_get slots.now slot ≡ Some (Space n)) }
    ensures none { IfNone result (IsNoSpace (slice_get slots.now slot)) }
{
    match slots.as_slice().get(slot as usize) {
        Some(Value::Space(space)) => Some(space.volume()),
        _ => None,
    }
}

/// Whether a slot holds what an argument hands over.
fn is_held(slots: &Slots, arg: LaunchArg) -> bool
    ensures { result ≡ is_held slots.now arg }
{
    match arg {
        LaunchArg::Child(slot) => match partition_in(slots, slot) {
            Some(_) => true,
            None => false,
        },
        LaunchArg::Keep(slot) => match slots.as_slice().get(slot as usize) {
            Some(Value::Pending(_)) | None => false,
            Some(_) => true,
        },
        LaunchArg::Number(_) | LaunchArg::Point => true,
    }
}

/// Whether the slots hold what all arguments hand over.
pub fn are_held(slots: &Slots, args: &[LaunchArg]) -> bool
    ensures { result ≡ list_all (is_held slots.now) args.now }
{
    for arg in args {
        if !is_held(slots, *arg) {
            return false;
        }
    }
    true
}

/// The value of an argument at a colour; None where there is no region of that colour.
fn argument(slots: &Slots, arg: PointArg) -> Result<Option<Value>, AllocError>
    ensures { IfOk result (λ value. value ≡ argument slots.now arg) }
{
    match arg {
        PointArg::Child { slot, colour } => child_in(slots, slot, colour),
        PointArg::Keep(slot) => match slots.as_slice().get(slot as usize) {
            Some(value) => Ok(Some(value.copy()?)),
            None => Ok(None),
        },
        PointArg::Number(z) => Ok(Some(Value::Number(z))),
    }
}

/// The region of a colour in the partition of a slot.
fn child_in(slots: &Slots, slot: u32, colour: u32) -> Result<Option<Value>, AllocError>
    ensures { IfOk result (λ value. value ≡ child_in (partition_in (slice_get slots.now slot)) colour) }
{
    let Some(partition) = partition_in(slots, slot) else {
        return Ok(None);
    };
    match partition.children.get().as_slice().get(colour as usize) {
        Some(region) => Ok(Some(Value::Region(region.copy()?))),
        None => Ok(None),
    }
}

/// The values of all arguments at a colour; None where one has none.
pub(crate) fn arguments(
    alloc: Global,
    slots: &Slots,
    args: &[PointArg],
) -> Result<Option<Sequence<Value>>, AllocError>
    ensures { IfOk result (λ values. values ≡ arguments slots.now args.now) }
{
    let mut values = Sequence::new(alloc);
    for arg in args {
        match argument(slots, *arg)? {
            Some(value) => values.push(value)?,
            None => return Ok(None),
        }
    }
    Ok(Some(values))
}
