//! Places of points among the points of words.

ghost use Rattle.std.specs.Prelude.{◌≡◌, ◌+◌, ◌*◌, ◌<◌, ◌≤◌, ℕ, false, length, IfNone, IfOk, IfSome};
ghost use Rattle.bit_planes.specs.Planes.{IsPlace, IsStretch, count_below, has_point};
ghost use Rattle.bit_planes.specs.Words.{AreTotals, number_of};

use crate::WORD_LIMIT;
use crate::words::{first_bit, one_at};
use std::alloc::{AllocError, Global};
use std::ops::Range;

/// How many points words have up to the end of each.
pub fn totals_of(alloc: Global, words: &[u64]) -> Result<Vec<u32>, AllocError>
    requires { length words.now ≤ WORD_LIMIT }
    ensures { IfOk result (λ r. AreTotals words.now r.items) }
{
    let mut totals = Vec::with_capacity(alloc, words.len())?;
    let mut total = 0;
    for word in words {
        total += word.count_ones();
        totals.push(total)?;
    }
    Ok(totals)
}

/// How many points stand before a word.
pub fn count_ahead(words: &[u64], totals: &[u32], number: usize) -> u32
    requires totals { AreTotals words.now totals.now }
    requires inside { number ≤ length words.now }
    ensures { result ≡ count_below (has_point (number_of words.now)) (64 * number) }
{
    if number == 0 { 0 } else { totals[number - 1] }
}

/// The number of the word in which the point of a place lies, or how many words there are.
fn word_of_place(words: &[u64], totals: &[u32], place: u32) -> usize
    requires { AreTotals words.now totals.now }
    ensures within { result ≤ length words.now }
    ensures ahead { count_below (has_point (number_of words.now)) (64 * result) ≤ place }
    ensures behind { result < length words.now
        → place < count_below (has_point (number_of words.now)) (64 * (result + 1)) }
{
    totals.partition_point(|total| *total <= place)
}

/// The point before which so many stand.
pub fn point_at(words: &[u64], totals: &[u32], place: u32) -> Option<usize>
    requires short { length words.now ≤ WORD_LIMIT }
    requires totals { AreTotals words.now totals.now }
    ensures some { IfSome result (λ point. IsPlace (number_of words.now) point place) }
    ensures within { IfSome result (λ point. point < 64 * length words.now) }
    ensures none { IfNone result
        (count_below (has_point (number_of words.now)) (64 * length words.now) ≤ place) }
{
    let number = word_of_place(words, totals, place);
    if number == words.len() {
        return None;
    }
    let left = place - count_ahead(words, totals, number);
    Some(64 * number + one_at(words[number], left) as usize)
}

/// How many points stand before a point of the words.
pub fn count_before(words: &[u64], totals: &[u32], point: usize) -> u32
    requires short { length words.now ≤ WORD_LIMIT }
    requires totals { AreTotals words.now totals.now }
    requires inside { point < 64 * length words.now }
    ensures { result ≡ count_below (has_point (number_of words.now)) point }
{
    let number = point / 64;
    let below = words[number] & ((1 << (point % 64)) - 1);
    count_ahead(words, totals, number) + below.count_ones()
}

/// The first stretch of points from a place on, of the points of words.
pub fn stretch_in(words: &[u64], from: usize) -> Option<Range<usize>>
    requires { length words.now ≤ WORD_LIMIT }
    ensures some { IfSome result (λ r. IsStretch (number_of words.now) from r.start r.end) }
    ensures within { IfSome result (λ r. r.end ≤ 64 * length words.now) }
    ensures none { IfNone result
        ((z : ℕ) → from ≤ z → has_point (number_of words.now) z ≡ false) }
{
    let end = 64 * words.len();
    if end <= from {
        return None;
    }
    let start = first_bit(words, true, from);
    if start == end {
        return None;
    }
    Some(start..first_bit(words, false, start))
}
