//! Points that several sets share, found by a sweep over the stretches of all sets in order.

ghost use Rattle.std.specs.Prelude.{◌≡◌, ◌≢◌, ◌↔◌, IsTrue, ◌<◌, ℕ, All, IfOk, IfSome, OnOk};
ghost use Rattle.std.specs.Prelude.{cond, length, nat_lt};
ghost use Rattle.std.specs.List.Sorted.{IsNonDecreasingBy};
ghost use Rattle.region_tree.specs.Sharing.{AreDisjoint, AreFound, AreSharing, IsFound};
ghost use Rattle.region_tree.specs.Sharing.{IsLeastShared, IsShared, IsSpan};

use point_sets::PointSet;
use std::alloc::{AllocError, Global};

/// Points of the set of a colour without a gap: from the first to below the end.
#[derive(Clone, Copy, Debug)]
pub struct Span {
    pub first: u32,
    pub end: u32,
    pub colour: usize,
}

/// The least point that two of the sets share, if any. It sorts the stretches of all sets, so its time
/// doesn't grow with the square of their number. It fails for want of memory alone.
pub fn least_shared(alloc: Global, sets: &[PointSet]) -> Result<Option<u32>, AllocError>
    ensures none { IfOk result (λ r. r ≡ None → AreDisjoint sets.now) }
    ensures some { IfOk result (λ r. IfSome r (λ z.
        (a : ℕ) × (b : ℕ) × AreSharing sets.now a b z)) }
    ensures least { IfOk result (λ r. IfSome r (IsLeastShared sets.now)) }
{
    let mut spans = all_spans(alloc, sets)?;
    spans.sort_unstable_by_key(|span| span.first);
    Ok(first_shared(&spans))
}

/// The stretches of all sets, by colour.
fn all_spans(alloc: Global, sets: &[PointSet]) -> Result<Vec<Span>, AllocError>
    ensures spans { IfOk result (λ v. All (IsSpan sets.now) v.items) }
    ensures found { IfOk result (λ v. (colour : ℕ)
        → colour < length sets.now → AreFound sets.now v.items colour) }
{
    let mut spans = Vec::new(alloc);
    for colour in 0..sets.len() {
        add_spans(&mut spans, sets, colour)?;
    }
    Ok(spans)
}

/// Adds the stretches of the set of a colour.
fn add_spans(spans: &mut Vec<Span>, sets: &[PointSet], colour: usize) -> Result<(), AllocError>
    requires colours { colour < length sets.now }
    requires spans { All (IsSpan sets.now) spans.old.items }
    ensures spans { OnOk result (All (IsSpan sets.now) spans.new.items) }
    ensures found { OnOk result (AreFound sets.now spans.new.items colour) }
    ensures kept { OnOk result ((other z : ℕ)
        → IsFound spans.old.items other z → IsFound spans.new.items other z) }
{
    let set = &sets[colour];
    let mut from = 0;
    while let Some(stretch) = set.stretch_from(from) {
        let span = Span {
            first: stretch.start,
            end: stretch.end,
            colour,
        };
        spans.push(span)?;
        from = stretch.end;
    }
    Ok(())
}

/// The least point in two spans of different colours. The spans are sorted by their first points;
/// each is compared with the one before it that reaches furthest.
fn first_shared(spans: &[Span]) -> Option<u32>
    requires rising { IsNonDecreasingBy (λ s. s.first) spans.now }
    requires some { All (λ s. s.first < s.end) spans.now }
    ensures none { result ≡ None → (z : ℕ) → ¬ IsShared spans.now z }
    ensures shared { IfSome result (IsShared spans.now) }
    ensures least { IfSome result (λ x. (z : ℕ) → z < x → ¬ IsShared spans.now z) }
{
    let mut reach = Span {
        first: 0,
        end: 0,
        colour: 0,
    };
    for span in spans {
        if begins_inside(*span, reach) {
            return Some(span.first);
        }
        reach = further(reach, *span);
    }
    None
}

/// Whether a span begins before another one ends, and is of another colour.
fn begins_inside(span: Span, other: Span) -> bool
    ensures { IsTrue result ↔ ((span.first < other.end) × (span.colour ≢ other.colour)) }
{
    span.first < other.end && span.colour != other.colour
}

/// The one of two spans that reaches further.
fn further(one: Span, other: Span) -> Span
    ensures { result ≡ cond (nat_lt one.end other.end) other one }
{
    if one.end < other.end { other } else { one }
}
