//! Planes of bits.

ghost use Rattle.std.specs.Prelude.{◌≡◌, ◌↔◌, ◌+◌, ◌*◌, ◌<◌, ◌≤◌, ◌&&◌, ◌||◌, not, ℕ, false, length, slice_index, IfNone, IfOk, IfSome, IsTrue};
ghost use Rattle.plain_values.specs.Points.{IsPoints, has};
ghost use Rattle.bit_planes.specs.Planes.{IsBelow, IsPlace, IsSpan, IsStretch, count_below, has_point, is_last};
ghost use Rattle.bit_planes.specs.Words.{IsBetween, IsWindow, placed};

use crate::WORD_LIMIT;
use crate::builder::PlaneBuilder;
use crate::places::{count_ahead, count_before, point_at, stretch_in, totals_of};
use crate::windows::{are_within, end_of_ones, share_a_point, window, zeros_ahead};
use crate::words::{count_stretches, has_bit, word_at};
use lane_kernels::{and_words, minus_words, or_words};
use std::alloc::{AllocError, Global};
use std::marker::Model;
use std::ops::Range;

/// A set of points as the bits of words, from the first point's word to the last point's. Contracts see it as the
/// number that has a one at each of its points.
#[derive(Debug, Drop)]
pub struct Plane {
    /// The number of the first word, which has the points from 64 times that on.
    first: usize,
    words: Vec<u64>,
    /// How many points there are up to the end of each word.
    totals: Vec<u32>,
}

impl Model for Plane {
    ghost use Rattle.std.specs.Prelude.{ℕ};
    ghost use Rattle.bit_planes.specs.Words.{ArePlane, placed};

    ghost Value = { ℕ };

    ghost view = { λ a. placed a.first a.words.items };

    ghost invariant = { λ a. ArePlane a.first a.words.items a.totals.items };
}

impl Plane {
    /// The plane of a rising list.
    pub fn from_sorted(alloc: Global, points: &[u32]) -> Result<Plane, AllocError>
        requires { IsPoints (64 * WORD_LIMIT) points.now }
        ensures { IfOk result (λ r. (z : ℕ) → has_point r z ≡ has points.now z) }
    {
        let (first, last) = ends_of(points);
        let mut builder = PlaneBuilder::new(alloc, first, last)?;
        for point in points {
            builder.set_range(*point, *point + 1);
        }
        builder.finish()
    }

    /// The same plane once more.
    pub fn copy(&self) -> Result<Plane, AllocError>
        ensures { IfOk result (λ r. r ≡ self.now) }
    {
        let alloc = *self.words.allocator();
        let words = Vec::from_slice(alloc, self.words.as_slice())?;
        let totals = Vec::from_slice(alloc, self.totals.as_slice())?;
        Ok(Plane {
            first: self.first,
            words,
            totals,
        })
    }

    /// The points of either plane.
    pub fn union(&self, o: &Plane) -> Result<Plane, AllocError>
        ensures { IfOk result (λ r. (z : ℕ) → has_point r z
            ≡ (has_point self.now z || has_point o.now z)) }
    {
        let left = self.span();
        let right = o.span();
        let from = left.start.min(right.start);
        let count = left.end.max(right.end) - from;
        let mut words = self.window(from, count)?;
        let other = o.window(from, count)?;
        or_words(words.as_mut_slice(), other.as_slice());
        Plane::from_words(from, words)
    }

    /// The points of both planes.
    pub fn meet(&self, o: &Plane) -> Result<Plane, AllocError>
        ensures { IfOk result (λ r. (z : ℕ) → has_point r z
            ≡ (has_point self.now z && has_point o.now z)) }
    {
        let left = self.span();
        let right = o.span();
        let from = left.start.max(right.start);
        let count = left.end.min(right.end).saturating_sub(from);
        let mut words = self.window(from, count)?;
        let other = o.window(from, count)?;
        and_words(words.as_mut_slice(), other.as_slice());
        Plane::from_words(from, words)
    }

    /// The points of this plane that the other lacks.
    pub fn minus(&self, o: &Plane) -> Result<Plane, AllocError>
        ensures { IfOk result (λ r. (z : ℕ) → has_point r z
            ≡ (has_point self.now z && not (has_point o.now z))) }
    {
        let left = self.span();
        let from = left.start;
        let count = left.end - from;
        let mut words = self.window(from, count)?;
        let other = o.window(from, count)?;
        minus_words(words.as_mut_slice(), other.as_slice());
        Plane::from_words(from, words)
    }

    /// Whether the two planes share a point.
    pub fn meets(&self, o: &Plane) -> bool
        ensures some { IsTrue result
            → (z : ℕ) × IsTrue (has_point self.now z && has_point o.now z) }
        ensures none { result ≡ false
            → (z : ℕ) → (has_point self.now z && has_point o.now z) ≡ false }
    {
        share_a_point(
            self.first,
            self.words.as_slice(),
            o.first,
            o.words.as_slice(),
        )
    }

    /// Whether the other plane has every point of this one.
    pub fn within(&self, o: &Plane) -> bool
        ensures all { IsTrue result
            → (z : ℕ) → (has_point self.now z && not (has_point o.now z)) ≡ false }
        ensures some { result ≡ false
            → (z : ℕ) × IsTrue (has_point self.now z && not (has_point o.now z)) }
    {
        are_within(
            self.first,
            self.words.as_slice(),
            o.first,
            o.words.as_slice(),
        )
    }

    /// Whether the plane has a point.
    pub fn has(&self, point: u32) -> bool
        ensures { result ≡ has_point self.now point }
    {
        let word = word_at(self.first, self.words.as_slice(), point as usize / 64);
        has_bit(word, point % 64)
    }

    /// How many points there are.
    pub fn len(&self) -> u32
        ensures value { result ≡ count_below (has_point self.now) (64 * WORD_LIMIT) }
        ensures below { IsBelow (64 * WORD_LIMIT) self.now }
    {
        let words = self.words.as_slice();
        count_ahead(words, self.totals.as_slice(), words.len())
    }

    /// How many stretches of points without a gap there are.
    pub fn stretches(&self) -> u32
        ensures { result ≡ count_below (is_last self.now) (64 * WORD_LIMIT) }
    {
        count_stretches(self.words.as_slice())
    }

    /// How many words the plane takes.
    pub fn words(&self) -> usize
        ensures { IsSpan self.now result }
    {
        self.words.len()
    }

    /// The point before which so many others stand.
    pub fn at(&self, place: u32) -> Option<u32>
        ensures some { IfSome result (λ point. IsPlace self.now point place) }
        ensures none { IfNone result
            (count_below (has_point self.now) (64 * WORD_LIMIT) ≤ place) }
    {
        let point = point_at(self.words.as_slice(), self.totals.as_slice(), place)?;
        Some((64 * self.first + point) as u32)
    }

    /// How many others stand before a point of the plane.
    pub fn place_of(&self, point: u32) -> Option<u32>
        ensures some { IfSome result (λ place. IsPlace self.now point place) }
        ensures none { IfNone result (has_point self.now point ≡ false) }
    {
        if !self.has(point) {
            return None;
        }
        let words = self.words.as_slice();
        let place = point as usize - 64 * self.first;
        Some(count_before(words, self.totals.as_slice(), place))
    }

    /// The first stretch of points without a gap that stands at a point or behind it: from its start to below its
    /// end. Of a stretch that begins before the point it is what is left.
    pub fn stretch_from(&self, point: u32) -> Option<Range<u32>>
        ensures some { IfSome result (λ r. IsStretch self.now point r.start r.end) }
        ensures none { IfNone result ((z : ℕ) → point ≤ z → has_point self.now z ≡ false) }
    {
        let base = 64 * self.first;
        let stretch = stretch_in(self.words.as_slice(), (point as usize).saturating_sub(base))?;
        Some((base + stretch.start) as u32..(base + stretch.end) as u32)
    }

    /// The plane of words from a number on, of which the first and the last ones may be zero.
    pub fn from_words(first: usize, words: Vec<u64>) -> Result<Plane, AllocError>
        requires { first + length words.items ≤ WORD_LIMIT }
        ensures { IfOk result (λ r. r ≡ placed first words.items) }
    {
        let low = zeros_ahead(words.as_slice());
        let high = end_of_ones(words.as_slice(), low);
        let alloc = *words.allocator();
        let kept = Vec::from_slice(alloc, &words[low..high])?;
        let totals = totals_of(alloc, kept.as_slice())?;
        Ok(Plane {
            first: first + low,
            words: kept,
            totals,
        })
    }

    /// The numbers of its words.
    fn span(&self) -> Range<usize>
        ensures { IsBetween self.now result.start result.end }
    {
        self.first..self.first + self.words.len()
    }

    /// So many words from a number on.
    fn window(&self, from: usize, count: usize) -> Result<Vec<u64>, AllocError>
        requires { from + count ≤ WORD_LIMIT }
        ensures { IfOk result (λ r. IsWindow self.now from count r.items) }
    {
        window(
            *self.words.allocator(),
            self.first,
            self.words.as_slice(),
            from,
            count,
        )
    }
}

/// The first and the last point of a rising list, zeros where it is empty.
fn ends_of(points: &[u32]) -> (u32, u32)
    requires { IsPoints (64 * WORD_LIMIT) points.now }
    ensures order { result.0 ≤ result.1 }
    ensures below { result.1 < 64 * WORD_LIMIT }
    ensures first { (k : ℕ) → k < length points.now → result.0 ≤ slice_index points.now k }
    ensures last { (k : ℕ) → k < length points.now → slice_index points.now k ≤ result.1 }
{
    let first = points.first().copied().unwrap_or(0);
    let last = points.last().copied().unwrap_or(0);
    (first, last)
}
