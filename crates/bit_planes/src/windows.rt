//! Parts of planes, as words from a number on.

ghost use Rattle.std.specs.Prelude.{◌≡◌, ℕ, ◌+◌, ◌-◌, ◌*◌, ◌<◌, ◌≤◌, ◌&&◌, ◌||◌, length, nat_le, nat_lt, not, slice_index, false, IfOk, IsTrue};
ghost use Rattle.bit_planes.specs.Planes.{has_point};
ghost use Rattle.bit_planes.specs.Words.{IsWindow, number_of, placed};

use crate::WORD_LIMIT;
use crate::words::{ones_between, word_at};
use lane_kernels::any_common;
use std::alloc::{AllocError, Global};

/// So many words from a number on, zeros where the plane has none.
pub fn window(
    alloc: Global,
    first: usize,
    words: &[u64],
    from: usize,
    count: usize,
) -> Result<Vec<u64>, AllocError>
    requires { from + count ≤ WORD_LIMIT }
    ensures { IfOk result (λ r. IsWindow (placed first words.now) from count r.items) }
{
    let mut out = Vec::with_capacity(alloc, count)?;
    for number in 0..count {
        out.push(word_at(first, words, from + number))?;
    }
    Ok(out)
}

/// Sets the bits from a place to below another.
pub fn set_ones(words: &mut [u64], from: usize, end: usize)
    requires short { length words.old ≤ WORD_LIMIT }
    requires order { from ≤ end }
    requires inside { end ≤ 64 * length words.old }
    ensures length { length words.new ≡ length words.old }
    ensures set { (z : ℕ) → has_point (number_of words.new) z
        ≡ (has_point (number_of words.old) z || (nat_le from z && nat_lt z end)) }
{
    let mut place = from;
    while place < end {
        let number = place / 64;
        let stop = end.min(64 * (number + 1));
        words[number] |= ones_between((place % 64) as u32, (stop - 64 * number) as u32);
        place = stop;
    }
}

/// How many of the first words are zero.
pub fn zeros_ahead(words: &[u64]) -> usize
    ensures within { result ≤ length words.now }
    ensures zeros { (k : ℕ) → k < result → slice_index words.now k ≡ 0 }
    ensures ends { result < length words.now → 0 < slice_index words.now result }
{
    let mut count = 0;
    while count < words.len() && words[count] == 0 {
        count += 1;
    }
    count
}

/// Up to where there are words other than zeros, or a place that is known to be at most so far.
pub fn end_of_ones(words: &[u64], least: usize) -> usize
    requires { least ≤ length words.now }
    ensures ahead { least ≤ result }
    ensures within { result ≤ length words.now }
    ensures zeros { (k : ℕ) → result ≤ k → slice_index words.now k ≡ 0 }
    ensures ends { least < result → 0 < slice_index words.now (result - 1) }
{
    let mut end = words.len();
    while least < end && words[end - 1] == 0 {
        end -= 1;
    }
    end
}

/// Whether two planes share a point.
pub fn share_a_point(left_first: usize, left: &[u64], right_first: usize, right: &[u64]) -> bool
    requires left { left_first + length left.now ≤ WORD_LIMIT }
    requires right { right_first + length right.now ≤ WORD_LIMIT }
    ensures some { IsTrue result → (z : ℕ) × IsTrue (has_point (placed left_first left.now) z
        && has_point (placed right_first right.now) z) }
    ensures none { result ≡ false → (z : ℕ) → (has_point (placed left_first left.now) z
        && has_point (placed right_first right.now) z) ≡ false }
{
    let from = left_first.max(right_first);
    let end = (left_first + left.len()).min(right_first + right.len());
    if end <= from {
        return false;
    }
    let ours = &left[from - left_first..end - left_first];
    let theirs = &right[from - right_first..end - right_first];
    any_common(ours, theirs)
}

/// Whether the second plane has every point of the first.
pub fn are_within(left_first: usize, left: &[u64], right_first: usize, right: &[u64]) -> bool
    requires left { left_first + length left.now ≤ WORD_LIMIT }
    ensures all { IsTrue result → (z : ℕ) → (has_point (placed left_first left.now) z
        && not (has_point (placed right_first right.now) z)) ≡ false }
    ensures some { result ≡ false → (z : ℕ) × IsTrue (has_point (placed left_first left.now) z
        && not (has_point (placed right_first right.now) z)) }
{
    for number in 0..left.len() {
        if left[number] & !word_at(right_first, right, left_first + number) != 0 {
            return false;
        }
    }
    true
}
