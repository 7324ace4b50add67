//! Updates of the numbers at which a mask is set.

ghost use Rattle.std.specs.Prelude.{◌≡◌, ◌+◌, ◌≤◌, List, ℤ, length, map};
ghost use Rattle.std.specs.Simd.Lanes.{chunk, put_chunk, sel_l, zip2};
ghost use Rattle.lane_kernels.specs.Fronts.{AreLanes, beside, is_mark, paired_to, updated, updated_where};

use crate::load::{load, load_marks};
use crate::pairing::LANES;
use crate::update::Update;
use std::simd::prelude::*;

/// Updates each number at which the mask is set by the one beside it.
pub fn update_masked(update: Update, into: &mut [i64], from: &[i64], mask: &[bool])
    requires numbers { length into.old ≡ length from.now }
    requires marks { length into.old ≡ length mask.now }
    ensures { into.new ≡ sel_l mask.now (zip2 (updated update) into.old from.now) into.old }
{
    let mut at = 0;
    while into.len() - at >= LANES {
        update_eight(update, into, from, mask, at);
        at += LANES;
    }
    update_rest(update, into, from, mask, at);
}

/// The same for the numbers from a place on, one by one, where those before are up to date.
fn update_rest(update: Update, into: &mut [i64], from: &[i64], mask: &[bool], at: usize)
    requires place { at ≤ length into.old }
    requires numbers { length into.old ≡ length from.now }
    requires marks { length into.old ≡ length mask.now }
    ensures { (items : List ℤ) → into.old ≡ paired_to (updated_where update) at items (beside mask.now from.now)
        → into.new ≡ sel_l mask.now (zip2 (updated update) items from.now) items }
{
    for place in at..into.len() {
        into[place] = update.one_where(mask[place], into[place], from[place]);
    }
}

/// The same for as many numbers as there are lanes.
fn update_eight(update: Update, into: &mut [i64], from: &[i64], mask: &[bool], at: usize)
    requires into_room { at + 8 ≤ length into.old }
    requires from_room { at + 8 ≤ length from.now }
    requires mask_room { at + 8 ≤ length mask.now }
    ensures { into.new ≡ put_chunk at into.old (sel_l (chunk at 8 mask.now) (zip2 (updated update) (chunk at 8 into.old) (chunk at 8 from.now)) (chunk at 8 into.old)) }
{
    let left = load(into, at);
    let right = load(from, at);
    let results = update.lanes(left, right);
    select_lanes(load_marks(mask, at), results, left).copy_to_slice(&mut into[at..]);
}

/// The first lanes where a mark is set, and the second ones elsewhere.
fn select_lanes(marks: u64x8, set: i64x8, unset: i64x8) -> i64x8
    requires mark_lanes { length marks ≡ 8 }
    requires set_lanes { AreLanes set }
    requires unset_lanes { AreLanes unset }
    ensures { result ≡ sel_l (map is_mark marks) set unset }
{
    marks.simd_ne(u64x8::splat(0)).select(set, unset)
}
