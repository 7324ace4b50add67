//! What a number becomes beside another.

ghost use Rattle.std.specs.Prelude.{◌≡◌, map};
ghost use Rattle.std.specs.Simd.Lanes.{zip2};
ghost use Rattle.lane_kernels.specs.Numbers.{applied, wrapped};
ghost use Rattle.lane_kernels.specs.declared.numbers.Width.TheVariants.{W64};
ghost use Rattle.lane_kernels.specs.Fronts.{AreLanes, updated, updated_where};

use crate::load::load;
use crate::pairing::Pairing;
use crate::{Op, Width};
use std::simd::prelude::*;

/// What a number becomes beside another.
#[derive(Clone, Copy, Debug)]
pub enum Update {
    /// The operator's result at the width.
    Fold(Op, Width),
    /// The other number.
    Copy,
}

impl Update {
    /// What a number becomes where a mark is set, and else the number.
    pub fn one_where(self, mark: bool, a: i64, b: i64) -> i64
        ensures { result ≡ updated_where self a (mark, b) }
    {
        if mark { self.one(a, b) } else { a }
    }

    /// What each number of eight becomes.
    pub fn lanes(self, a: i64x8, b: i64x8) -> i64x8
        requires left { AreLanes a }
        requires right { AreLanes b }
        ensures { result ≡ zip2 (updated self) a b }
    {
        match self {
            Update::Fold(op, width) => wrap_lanes(width, fold_lanes(op, a, b)),
            Update::Copy => b,
        }
    }
}

impl Pairing<i64> for Update {
    ghost paired = { updated };

    fn one(self, a: i64, b: i64) -> i64 {
        match self {
            Update::Fold(op, width) => op.apply(width, a, b),
            Update::Copy => b,
        }
    }

    fn eight(self, into: &mut [i64], from: &[i64], at: usize) {
        let left = load(into, at);
        let right = load(from, at);
        self.lanes(left, right).copy_to_slice(&mut into[at..]);
    }
}

/// The operator's results at 64 bits.
fn fold_lanes(op: Op, a: i64x8, b: i64x8) -> i64x8
    requires left { AreLanes a }
    requires right { AreLanes b }
    ensures { result ≡ zip2 (applied op W64) a b }
{
    match op {
        Op::Sum => a + b,
        Op::Product => a * b,
        Op::Least => a.simd_min(b),
        Op::Greatest => a.simd_max(b),
    }
}

/// What is left of the numbers at a width.
fn wrap_lanes(width: Width, a: i64x8) -> i64x8
    requires { AreLanes a }
    ensures { result ≡ map (wrapped width) a }
{
    match width {
        Width::W32 => (a << i64x8::splat(32)) >> i64x8::splat(32),
        Width::W64 => a,
    }
}
