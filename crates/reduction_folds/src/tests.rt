//! Each call with memory at hand. What is expected is worked out by hand.

ghost use Rattle.std.specs.Prelude.{◌≡◌, ◌∷◌, [], IfOk};

use crate::Pending;
use lane_kernels::{Op, Width};
use point_sets::PointSet;
use std::alloc::{AllocError, Global};
use std::test::Fail;

fn values(alloc: Global, numbers: &[i64]) -> Result<Vec<i64>, AllocError> {
    Vec::from_slice(alloc, numbers)
}

fn point(alloc: Global) -> Result<PointSet, AllocError>
    ensures { IfOk result (λ points. points ≡ 1 ∷ []) }
{
    PointSet::range(alloc, 1, 2)
}

/// Sums of 5 at the points 0 and 2 of 0, 1 and 2.
fn common_points_are_folded(alloc: Global) -> Result<bool, AllocError> {
    let mut pending = Pending::new(alloc)?;
    let outer = PointSet::range(alloc, 0, 1)?.union(&PointSet::range(alloc, 2, 3)?)?;
    pending.add(Op::Sum, outer, values(alloc, &[5, 7])?)?;
    let all = PointSet::range(alloc, 0, 3)?;
    let mut numbers = [1_i64, 1, 1];
    pending.fold_into(Width::W64, &all, &mut numbers);
    Ok(numbers == [6, 1, 8])
}

/// A least of 5 and then a sum of 2 at the point 1.
fn two(alloc: Global) -> Result<Pending, AllocError> {
    let mut pending = Pending::new(alloc)?;
    pending.reserve(2)?;
    pending.add(Op::Least, point(alloc)?, values(alloc, &[5])?)?;
    pending.add(Op::Sum, point(alloc)?, values(alloc, &[2])?)?;
    Ok(pending)
}

fn folds_keep_their_order(alloc: Global) -> Result<bool, AllocError> {
    let pending = two(alloc)?;
    Ok(pending.fold_at(Width::W64, 1, 9) == 7 && pending.fold_at(Width::W64, 0, 9) == 9)
}

fn nothing_waits_behind(alloc: Global) -> Result<bool, AllocError> {
    let mut pending = two(alloc)?;
    let points = point(alloc)?;
    let mut numbers = [9_i64];
    pending.settle(Width::W32, &points, &mut numbers);
    Ok(numbers[0] == 7 && pending.fold_at(Width::W32, 1, 9) == 9)
}

#[test]
fn folds_with_memory_at_hand(rt: HostRuntime) -> Result<(), Fail> {
    assert!(rt; common_points_are_folded(rt.alloc())?);
    assert!(rt; folds_keep_their_order(rt.alloc())?);
    assert!(rt; nothing_waits_behind(rt.alloc())?);
    Ok(())
}
