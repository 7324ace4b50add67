//! Tests of two items, and a search for the first two beside each other that pass.

ghost use Rattle.std.specs.Prelude.{◌≡◌, ◌+◌, ◌≤◌, ◌==◌, Bool, List, length, drop, not, bit_and};
ghost use Rattle.std.specs.Simd.Lanes.{chunk};
ghost use Rattle.lane_kernels.specs.Fronts.{AreLanes, differ, some_pair};

use crate::load::load;
use crate::pairing::LANES;
use std::simd::prelude::*;

/// A test of two items, which is there for lanes too.
pub trait PairTest<T: Copy>: Copy {
    ghost passed: { T → T → Bool };

    fn one(self, a: T, b: T) -> bool
        ensures { result ≡ passed a b };

    /// Whether any two pass of as many as there are lanes.
    fn eight(self, a: &[T], b: &[T], at: usize) -> bool
        requires left_room { at + 8 ≤ length a.now }
        requires right_room { at + 8 ≤ length b.now }
        ensures { result ≡ some_pair passed (chunk at 8 a.now) (chunk at 8 b.now) };
}

/// Whether two numbers differ.
#[derive(Clone, Copy)]
pub struct Differs;

impl PairTest<i64> for Differs {
    ghost passed = { differ };

    fn one(self, a: i64, b: i64) -> bool {
        a != b
    }

    fn eight(self, a: &[i64], b: &[i64], at: usize) -> bool {
        any_differ(load(a, at), load(b, at))
    }
}

/// Whether any two numbers of eight differ.
fn any_differ(a: i64x8, b: i64x8) -> bool
    requires left { AreLanes a }
    requires right { AreLanes b }
    ensures { result ≡ some_pair differ a b }
{
    a.simd_ne(b).to_bitmask() != 0
}

/// Whether two words share a bit.
#[derive(Clone, Copy)]
pub struct SharesBit;

impl PairTest<u64> for SharesBit {
    ghost passed = { λ a b. not (bit_and a b == 0) };

    fn one(self, a: u64, b: u64) -> bool {
        a & b != 0
    }

    fn eight(self, a: &[u64], b: &[u64], at: usize) -> bool {
        let left = u64x8::from_slice(&a[at..]);
        let right = u64x8::from_slice(&b[at..]);
        (left & right).simd_ne(u64x8::splat(0)).to_bitmask() != 0
    }
}

/// Whether any two items beside each other pass.
pub fn any_pair<T: Copy, Q: PairTest<T>>(test: Q, a: &[T], b: &[T]) -> bool
    requires { length a.now ≡ length b.now }
    ensures { result ≡ some_pair Q.passed a.now b.now }
{
    let mut at = 0;
    while a.len() - at >= LANES {
        if test.eight(a, b, at) {
            return true;
        }
        at += LANES;
    }
    any_in_rest(test, a, b, at)
}

/// The same for the items from a place on, one by one.
fn any_in_rest<T: Copy, Q: PairTest<T>>(test: Q, a: &[T], b: &[T], at: usize) -> bool
    requires place { at ≤ length a.now }
    requires same_length { length a.now ≡ length b.now }
    ensures { result ≡ some_pair Q.passed (drop at a.now) (drop at b.now) }
{
    for place in at..a.len() {
        if test.one(a[place], b[place]) {
            return true;
        }
    }
    false
}
