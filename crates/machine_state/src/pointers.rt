//! Kept pointers, and the regions that they go through.

ghost use Rattle.std.specs.Prelude.{◌≡◌, ◌<◌, ◌^◌, IfNone, IfSome};
ghost use Rattle.std.specs.Prelude.{None, Some, false, pos, slice_get, true};
ghost use Rattle.plain_values.specs.Points.{has};
ghost use Rattle.regent_tree.specs.Values.{holds, kept_target, null_target};
ghost use Rattle.regent_tree.specs.Values.{point_target, target_kept};
ghost use Rattle.machine_terms.specs.Pointers.{are_same};
ghost use Rattle.machine_terms.specs.Pointers.{point, region_in};

use crate::slots::Slots;
use machine_terms::{RegionValue, Value};
use point_sets::PointSet;

/// A pointer to a point, through a position of its list of regions.
#[derive(Clone, Copy, Debug)]
pub struct Pointer {
    pub point: u32,
    pub position: u32,
}

impl Pointer {
    /// The pointer that a kept number means; None for null.
    pub fn kept(number: i64) -> Option<Pointer>
        ensures some { IfSome result (λ p. target_kept number ≡ point_target p.point p.position) }
        ensures none { IfNone result (target_kept number ≡ null_target) }
        ensures bound { IfSome result (λ p. p.position < 2 ^ 31) }
    {
        let number = u64::try_from(number).ok()?;
        Some(Pointer {
            point: (number % 0x1_0000_0000) as u32,
            position: (number / 0x1_0000_0000) as u32,
        })
    }

    /// The number that is kept of it.
    pub fn number(self) -> i64
        requires { self.position < 2 ^ 31 }
        ensures { result ≡ kept_target (point_target self.point self.position) }
    {
        i64::from(self.position) * 0x1_0000_0000 + i64::from(self.point)
    }
}

/// Whether two kept pointers are both null or have the same point.
pub fn are_same(a: i64, b: i64) -> bool
    ensures { result ≡ are_same a b }
{
    match (Pointer::kept(a), Pointer::kept(b)) {
        (Some(p), Some(q)) => p.point == q.point,
        (None, None) => true,
        _ => false,
    }
}

/// The region in a slot.
pub fn region_in(slots: &Slots, slot: u32) -> Option<&RegionValue>
    ensures some { IfSome result (λ r. region_in (slice_get slots.now slot) ≡ Some r.now) }
    ensures none { IfNone result (region_in (slice_get slots.now slot) ≡ None) }
{
    match slots.as_slice().get(slot as usize) {
        Some(Value::Region(region)) => Some(region),
        _ => None,
    }
}

/// The point of a number, where a set holds it.
#[tactic(auto, using(crate::proofs::Casting::none_held_below, crate::proofs::Casting::none_held_past))]
pub fn held_point(points: &PointSet, number: i64) -> Option<u32>
    ensures some { IfSome result (λ n. (number ≡ pos n) × (has points.now n ≡ true)) }
    ensures none { IfNone result (holds points.now number ≡ false) }
{
    let _count = points.len();
    if number < 0 || number > 0xffff_ffff {
        return None;
    }
    let point = number as u32;
    if points.has(point) { Some(point) } else { None }
}
