//! What kept pointers aim at, and what an access writes there.

ghost use Rattle.std.specs.Prelude.{◌≡◌};
ghost use Rattle.lane_kernels.specs.Modes.{same_op};
ghost use Rattle.regent_tree.specs.Values.{target_kept};
ghost use Rattle.machine_state.specs.Aims.{aimed};
ghost use Rattle.machine_terms.specs.Pointers.{aim_through, same_width, written};

use crate::pointers::{Pointer, region_in};
use crate::slots::Slots;
use lane_kernels::{Mode, Op, Width};
use plain_values::Sequence;
use regent_tree::FaultKind;
use region_tree::RootId;

/// What a kept pointer aims at through some slots.
#[derive(Clone, Copy, Debug)]
pub enum Aim {
    At(RootId, u32),
    Fails(FaultKind),
    Nowhere,
}

#[inline(always)]
pub fn aim_through(slots: &Slots, regions: &Sequence<u32>, number: i64) -> Aim
    ensures { aimed result ≡ aim_through slots.now regions.now (target_kept number) }
{
    let Some(pointer) = Pointer::kept(number) else {
        return Aim::Fails(FaultKind::NullPointer);
    };
    if pointer.position == 0 {
        return Aim::Fails(FaultKind::OutOfRegion);
    }
    let Some(slot) = regions.as_slice().get(pointer.position as usize - 1) else {
        return Aim::Nowhere;
    };
    let Some(region) = region_in(slots, *slot) else {
        return Aim::Nowhere;
    };
    if region.points.get().has(pointer.point) {
        Aim::At(region.root, pointer.point)
    } else {
        Aim::Fails(FaultKind::OutOfRegion)
    }
}

/// The number that takes the place of one that is held in a mode, where an access allows it.
#[inline(always)]
pub fn written(access: Mode, held: Mode, width: Width, old: i64, number: i64) -> Option<i64>
    ensures { result ≡ written access held width old number }
{
    match (access, held) {
        (Mode::Write, Mode::Write) => Some(width.wrap(number)),
        (Mode::Reduce(op), Mode::Write) => Some(op.apply(width, old, width.wrap(number))),
        (Mode::Reduce(op), Mode::Reduce(other)) => {
            if same_op(op, other) {
                Some(op.apply(width, old, width.wrap(number)))
            } else {
                None
            }
        }
        _ => None,
    }
}

/// Whether two operators are the same.
fn same_op(a: Op, b: Op) -> bool
    ensures { result ≡ same_op a b }
{
    match (a, b) {
        (Op::Sum, Op::Sum)
        | (Op::Product, Op::Product)
        | (Op::Least, Op::Least)
        | (Op::Greatest, Op::Greatest) => true,
        _ => false,
    }
}

/// Whether two widths are the same.
pub fn same_width(a: Width, b: Width) -> bool
    ensures { result ≡ same_width a b }
{
    match (a, b) {
        (Width::W32, Width::W32) | (Width::W64, Width::W64) => true,
        _ => false,
    }
}
