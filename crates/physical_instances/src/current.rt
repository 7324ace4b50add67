//! The numbers that are current beside points.

ghost use Rattle.std.specs.Prelude.{◌≡◌, ◌≤◌, ◌<◌, ◌+◌, None, IfOk, Some, get_or, length, pos, replicate, ℕ};
ghost use Rattle.std.specs.List.Sorted.{IsStrictlyIncreasing};
ghost use Rattle.logical_map.specs.Maps.{number_beside};
ghost use Rattle.physical_instances.specs.Instances.{current, current_beside, number_held, trimmed, written};

use plain_values::Sequence;
use point_sets::PointSet;
use region_tree::Piece;
use std::alloc::{AllocError, Global};

/// The number of an instance at a point; it is the base's where the instance isn't there or lacks the point.
pub(crate) fn current(further: &[Option<Piece>], which: u8, point: u32, number: i64) -> i64
    ensures { result ≡ current further.now which point number }
{
    if which == 0 {
        return number;
    }
    match further.get(which as usize - 1) {
        Some(Some(piece)) => number_held(piece, point, number),
        _ => number,
    }
}

/// The number of a piece at a point; another one where it lacks the point.
fn number_held(piece: &Piece, point: u32, number: i64) -> i64
    ensures { result ≡ number_held (Some piece.now) point number }
{
    match piece.points.place_of(point) {
        Some(place) => match piece.values.as_slice().get(place as usize) {
            Some(found) => *found,
            None => number,
        },
        None => number,
    }
}

/// The numbers of a piece from a point on, as far as its points follow one another without a gap, and at most so many.
pub(crate) fn run_in(piece: &Piece, point: u32, most: usize) -> &[i64]
    ensures most { length result.now ≤ most }
    ensures numbers { (k : ℕ) → k < length result.now
        → number_beside piece.now.points piece.now.values (point + k) ≡ Some (get_or result.now k (pos 0)) }
{
    let (Some(first), Some(stretch)) = (
        piece.points.place_of(point),
        piece.points.stretch_from(point),
    ) else {
        return &[];
    };
    let first = first as usize;
    let left = piece.points.len() as usize - first;
    let count = most.min((stretch.end - point) as usize).min(left);
    &piece.values.as_slice()[first..first + count]
}

/// How many marks from a place on are the same, at most so many.
pub(crate) fn same_from(valid: &[u8], place: usize, most: usize) -> usize
    requires { place + most ≤ length valid.now }
    ensures most { result ≤ most }
    ensures same { (k : ℕ) → k < result → get_or valid.now (place + k) 0 ≡ get_or valid.now place 0 }
{
    let mut count = 0;
    while count < most && valid[place + count] == valid[place] {
        count += 1;
    }
    count
}

/// Puts the current numbers into the base.
pub(crate) fn gather(root: &PointSet, further: &[Option<Piece>], valid: &[u8], base: &mut [i64])
    requires valid { length valid.now ≡ length root.now }
    requires base { length base.old ≡ length root.now }
    ensures { base.new ≡ current_beside further.now root.now valid.now base.old }
{
    for place in 0..root.len() {
        let Some(point) = root.at(place) else {
            unreachable!()
        };
        let place = place as usize;
        base[place] = current(further, valid[place], point, base[place]);
    }
}

/// Writes the numbers of a piece into those beside the points of a root.
pub(crate) fn write(root: &PointSet, piece: &Piece, base: &mut [i64])
    requires rising { IsStrictlyIncreasing root.now }
    requires beside { length base.old ≡ length root.now }
    ensures { base.new ≡ written piece.now root.now base.old }
{
    let values = piece.values.as_slice();
    for place in 0..piece.points.len() {
        let Some(point) = piece.points.at(place) else {
            unreachable!()
        };
        if let Some(found) = root.place_of(point) {
            base[found as usize] = values[place as usize];
        }
    }
}

/// So many places without a piece.
pub(crate) fn no_pieces(alloc: Global, count: usize) -> Result<Vec<Option<Piece>>, AllocError>
    ensures { IfOk result (λ further. further.items ≡ replicate count None) }
{
    let mut further = Vec::new(alloc);
    for _ in 0..count {
        further.push(None)?;
    }
    Ok(further)
}

/// Drops the pieces that are current nowhere.
pub(crate) fn trim(counts: &[usize], further: &mut [Option<Piece>])
    requires { length counts.now ≡ length further.old }
    ensures { further.new ≡ trimmed counts.now further.old }
{
    for place in 0..further.len() {
        if counts[place] == 0 {
            further[place] = None;
        }
    }
}

/// Drops all pieces.
pub(crate) fn clear(further: &mut [Option<Piece>])
    ensures length { length further.new ≡ length further.old }
    ensures none { (k : ℕ) → get_or further.new k None ≡ None }
{
    for place in 0..further.len() {
        further[place] = None;
    }
}
