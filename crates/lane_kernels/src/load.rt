//! Eight numbers, or eight marks, as a vector.

ghost use Rattle.std.specs.Prelude.{◌≡◌, ◌+◌, ◌≤◌, length, map};
ghost use Rattle.std.specs.Simd.Lanes.{chunk};
ghost use Rattle.lane_kernels.specs.Fronts.{AreLanes, mark_number};

use std::simd::prelude::*;

/// The numbers from a place on. They are read one by one, since a number that is read by itself is
/// known to fit its type; the compiler makes vector loads of it.
pub fn load(numbers: &[i64], at: usize) -> i64x8
    requires { at + 8 ≤ length numbers.now }
    ensures value { result ≡ chunk at 8 numbers.now }
    ensures known { AreLanes result }
{
    i64x8::from_array([
        numbers[at],
        numbers[at + 1],
        numbers[at + 2],
        numbers[at + 3],
        numbers[at + 4],
        numbers[at + 5],
        numbers[at + 6],
        numbers[at + 7],
    ])
}

/// 1 for each mark that is set, from a place on, and 0 for the others.
pub fn load_marks(mask: &[bool], at: usize) -> u64x8
    requires { at + 8 ≤ length mask.now }
    ensures { result ≡ map mark_number (chunk at 8 mask.now) }
{
    u64x8::from_array([
        u64::from(mask[at]),
        u64::from(mask[at + 1]),
        u64::from(mask[at + 2]),
        u64::from(mask[at + 3]),
        u64::from(mask[at + 4]),
        u64::from(mask[at + 5]),
        u64::from(mask[at + 6]),
        u64::from(mask[at + 7]),
    ])
}
