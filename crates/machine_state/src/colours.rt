//! The partition in a slot, and its regions.

ghost use Rattle.std.specs.Prelude.{◌≡◌, IfNone, IfSome, None, Some, slice_get};
ghost use Rattle.machine_terms.specs.Regions.{coloured};
ghost use Rattle.machine_terms.specs.Regions.{partition_in};

use crate::slots::Slots;
use machine_terms::{PartitionValue, RegionValue, Value};
use plain_values::Sequence;

/// The partition in a slot.
pub fn partition_in(slots: &Slots, slot: u32) -> Option<&PartitionValue>
    ensures some { IfSome result (λ p. partition_in (slice_get slots.now slot) ≡ Some p.now) }
    ensures none { IfNone result (partition_in (slice_get slots.now slot) ≡ None) }
{
    match slots.as_slice().get(slot as usize) {
        Some(Value::Partition(partition)) => Some(partition),
        _ => None,
    }
}

/// The region of a colour.
pub fn coloured(children: &Sequence<RegionValue>, number: i64) -> Option<&RegionValue>
    ensures some { IfSome result (λ r. coloured children.now number ≡ Some r.now) }
    ensures none { IfNone result (coloured children.now number ≡ None) }
{
    if number < 0 {
        return None;
    }
    children.as_slice().get(number as usize)
}
