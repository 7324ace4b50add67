//! What a task instance needs, and the parts that it holds.

ghost use Rattle.std.specs.Prelude.{◌≡◌, ℤ, IfErr, IfNone, IfOk, IfSome, None, Some};
ghost use Rattle.std.specs.Prelude.{ℕ, slice_get, slice_set, true};
ghost use Rattle.std.specs.List.{position_from};
ghost use Rattle.machine_state.specs.Holding.{lacking, put_at, put_in_pieces};
ghost use Rattle.machine_terms.specs.Parts.{cell_at, find, found, is_needed, is_part_of};
ghost use Rattle.machine_terms.specs.Parts.{part_of};
ghost use Rattle.machine_terms.specs.Parts.{set_beside, set_cell, set_part, value_beside};

use lane_kernels::{FieldKind, Mode};
use plain_values::Sequence;
use region_tree::{Need, Needs, Part, Piece, RootId};
use std::alloc::Global;
use std::marker::Model;
use std::mem;

/// The needs of a frame while it runs, and its parts.
#[derive(Drop)]
pub struct Holdings {
    needs: Needs,
    parts: Vec<Part>,
    /// For some fields each, the place of the part that was found last.
    found: [usize; 16],
}

impl Model for Holdings {
    ghost use Rattle.std.specs.Prelude.{◌≡◌, All, length};
    ghost use Rattle.machine_state.specs.Holding.{Holding, IsKnown};

    ghost Value = { Holding };

    ghost view = { λ h. record { needs = h.needs.items; parts = h.parts.items } };

    ghost invariant = { λ h. (length h.found ≡ 16)
        × All (IsKnown h.needs.items h.parts.items) h.found };
}

/// Where a number stands: by the place of its part, that of its piece there, and that of its point in
/// the piece.
#[derive(Clone, Copy, Debug)]
pub struct Spot {
    pub part: usize,
    pub piece: usize,
    pub place: usize,
}

/// A point's number as it is held.
#[derive(Clone, Copy, Debug)]
pub struct Element {
    pub kind: FieldKind,
    pub mode: Mode,
    pub value: i64,
    pub spot: Spot,
}

/// Why a point's number isn't found.
#[derive(Clone, Copy, Debug)]
pub enum Lack {
    /// It may not be touched, or isn't in the part.
    Refused,
    /// There is no part.
    Missing,
}

/// A point's number in a piece of some pieces.
#[derive(Clone, Copy, Debug)]
struct Entry {
    mode: Mode,
    value: i64,
    piece: usize,
    place: usize,
}

impl Holdings {
    pub fn new(needs: Needs, parts: Sequence<Part>) -> Holdings
        ensures { result ≡ record { needs = needs.items; parts = parts } }
    {
        Holdings {
            needs,
            parts: parts.into_vec(),
            found: [usize::MAX; 16],
        }
    }

    pub fn into_parts(self) -> (Needs, Sequence<Part>)
        ensures needs { result.0.items ≡ self.needs }
        ensures parts { result.1 ≡ self.parts }
    {
        let Holdings { needs, parts, .. } = self;
        (needs, Sequence::from_vec(parts))
    }

    pub fn allocator(&self) -> Global {
        *self.parts.allocator()
    }

    /// What stands at a point of a root's field.
    #[inline(always)]
    pub fn find(&mut self, root: RootId, field: u8, point: u32) -> Result<Element, Lack>
        ensures same { self.new ≡ self.old }
        ensures ok { IfOk result (λ e. find self.old.needs self.old.parts root.0 field point
            ≡ found e.kind (record { mode = e.mode; value = e.value })) }
        ensures set { IfOk result (λ e. (z : ℤ)
            → set_part self.old.parts root.0 field point z ≡ put_at self.old.parts e.spot z) }
        ensures err { IfErr result (λ l.
            find self.old.needs self.old.parts root.0 field point ≡ lacking l) }
    {
        let place = match self.place(root, field) {
            Ok(place) => place,
            Err(lack) => return Err(lack),
        };
        let Some(element) = find_in(&self.parts[place], place, point) else {
            return Err(Lack::Refused);
        };
        Ok(element)
    }

    /// The place of the part of a root's field, which may be known from before.
    #[inline(always)]
    fn place(&mut self, root: RootId, field: u8) -> Result<usize, Lack>
        ensures same { self.new ≡ self.old }
        ensures needed { IfOk result (λ _. is_needed self.old.needs root.0 field ≡ true) }
        ensures place { IfOk result (λ k.
            position_from (is_part_of root.0 field) 0 self.old.parts ≡ Some k) }
        ensures err { IfErr result (λ l. (p : ℕ)
            → find self.old.needs self.old.parts root.0 field p ≡ lacking l) }
    {
        if let Some(place) = self.known(root, field) {
            return Ok(place);
        }
        let place = match place_in(&self.needs, self.parts.as_slice(), root, field) {
            Ok(place) => place,
            Err(lack) => return Err(lack),
        };
        self.found[field as usize % 16] = place;
        Ok(place)
    }

    /// The place of the part of a root's field, where it was found last.
    #[inline(always)]
    fn known(&self, root: RootId, field: u8) -> Option<usize>
        ensures needed { IfSome result (λ _. is_needed self.now.needs root.0 field ≡ true) }
        ensures place { IfSome result (λ k.
            position_from (is_part_of root.0 field) 0 self.now.parts ≡ Some k) }
    {
        let place = self.found[field as usize % 16];
        let parts = self.parts.as_slice();
        if place >= parts.len() {
            return None;
        }
        let part = &parts[place];
        if part.root.0 == root.0 && part.field == field {
            Some(place)
        } else {
            None
        }
    }

    /// The part of a root's field.
    pub fn part_of(&self, root: RootId, field: u8) -> Result<&Part, Lack>
        ensures needed { IfOk result (λ _. is_needed self.now.needs root.0 field ≡ true) }
        ensures part { IfOk result (λ q. part_of self.now.parts root.0 field ≡ Some q.now) }
        ensures err { IfErr result (λ l. (p : ℕ)
            → find self.now.needs self.now.parts root.0 field p ≡ lacking l) }
    {
        if !is_needed(self.needs.items.as_slice(), root, field) {
            return Err(Lack::Refused);
        }
        let Some(place) = place_of_part(self.parts.as_slice(), root, field) else {
            return Err(Lack::Missing);
        };
        Ok(&self.parts[place])
    }

    /// Puts a number in the place of another.
    #[inline(always)]
    pub fn put(&mut self, spot: Spot, value: i64)
        ensures needs { self.new.needs ≡ self.old.needs }
        ensures parts { self.new.parts ≡ put_at self.old.parts spot value }
    {
        if spot.part < self.parts.len() {
            let alloc = *self.parts.allocator();
            put_in(alloc, &mut self.parts[spot.part].pieces, spot, value);
        }
    }
}

/// Whether a root's field is needed.
fn is_needed(needs: &[Need], root: RootId, field: u8) -> bool
    ensures { result ≡ is_needed needs.now root.0 field }
{
    for need in needs {
        if need.root.0 == root.0 && need.field == field {
            return true;
        }
    }
    false
}

/// The place of the first part of a root's field that is needed.
#[tactic(auto, using(crate::proofs::Spots::find_missing, crate::proofs::Spots::find_none))]
fn place_in(needs: &Needs, parts: &[Part], root: RootId, field: u8) -> Result<usize, Lack>
    ensures needed { IfOk result (λ _. is_needed needs.now.items root.0 field ≡ true) }
    ensures place { IfOk result (λ k.
        position_from (is_part_of root.0 field) 0 parts.now ≡ Some k) }
    ensures err { IfErr result (λ l. (p : ℕ)
        → find needs.now.items parts.now root.0 field p ≡ lacking l) }
{
    if !is_needed(needs.items.as_slice(), root, field) {
        return Err(Lack::Refused);
    }
    match place_of_part(parts, root, field) {
        Some(place) => Ok(place),
        None => Err(Lack::Missing),
    }
}

/// The place of the first part of a root's field.
fn place_of_part(parts: &[Part], root: RootId, field: u8) -> Option<usize>
    ensures { result ≡ position_from (is_part_of root.0 field) 0 parts.now }
{
    for (place, part) in parts.iter().enumerate() {
        if part.root.0 == root.0 && part.field == field {
            return Some(place);
        }
    }
    None
}

/// A point's number in a part, whose place is given.
#[inline(always)]
pub fn find_in(part: &Part, place: usize, point: u32) -> Option<Element>
    ensures some { IfSome result (λ e.
        cell_at part.now.pieces point ≡ Some (record { mode = e.mode; value = e.value })) }
    ensures kind { IfSome result (λ e. e.kind ≡ part.now.kind) }
    ensures part { IfSome result (λ e. e.spot.part ≡ place) }
    ensures set { IfSome result (λ e. (z : ℤ) → set_cell part.now.pieces point z
        ≡ put_in_pieces part.now.pieces e.spot.piece e.spot.place z) }
    ensures none { IfNone result (cell_at part.now.pieces point ≡ None) }
{
    match entry_of(part.pieces.as_slice(), point) {
        Some(entry) => Some(Element {
            kind: part.kind,
            mode: entry.mode,
            value: entry.value,
            spot: Spot {
                part: place,
                piece: entry.piece,
                place: entry.place,
            },
        }),
        None => None,
    }
}

/// A point's number in the first piece that has the point.
#[inline(always)]
fn entry_of(pieces: &[Piece], point: u32) -> Option<Entry>
    ensures some { IfSome result (λ e.
        cell_at pieces.now point ≡ Some (record { mode = e.mode; value = e.value })) }
    ensures set { IfSome result (λ e. (z : ℤ)
        → set_cell pieces.now point z ≡ put_in_pieces pieces.now e.piece e.place z) }
    ensures none { IfNone result (cell_at pieces.now point ≡ None) }
{
    for (piece, held) in pieces.iter().enumerate() {
        if let Some((place, value)) = number_in(held, point) {
            let mode = held.mode;
            return Some(Entry {
                mode,
                value,
                piece,
                place,
            });
        }
    }
    None
}

/// The place of a point in a piece, and its number.
#[inline(always)]
fn number_in(piece: &Piece, point: u32) -> Option<(usize, i64)>
    ensures some { IfSome result (λ r.
        value_beside piece.now.points piece.now.values point ≡ Some r.1) }
    ensures set { IfSome result (λ r. (z : ℤ)
        → set_beside piece.now.points piece.now.values point z
        ≡ slice_set piece.now.values r.0 z) }
    ensures none { IfNone result
        (value_beside piece.now.points piece.now.values point ≡ None) }
{
    match piece.points.place_of(point) {
        None => None,
        Some(place) => {
            let place = place as usize;
            match value_at(piece, place) {
                Some(value) => Some((place, value)),
                None => None,
            }
        }
    }
}

/// The number at a place of a piece.
#[inline(always)]
fn value_at(piece: &Piece, place: usize) -> Option<i64>
    ensures { result ≡ slice_get piece.now.values place }
{
    match piece.values.as_slice().get(place) {
        Some(value) => Some(*value),
        None => None,
    }
}

/// Puts a number in the place of another, in the pieces of a part.
#[inline(always)]
fn put_in(alloc: Global, pieces: &mut Sequence<Piece>, spot: Spot, value: i64)
    ensures { pieces.new ≡ put_in_pieces pieces.old spot.piece spot.place value }
{
    let mut held = mem::replace(pieces, Sequence::new(alloc)).into_vec();
    if spot.piece < held.len() {
        put_in_piece(&mut held[spot.piece], spot.place, value);
    }
    *pieces = Sequence::from_vec(held);
}

/// Puts a number in the place of another, in a piece.
#[inline(always)]
fn put_in_piece(piece: &mut Piece, place: usize, value: i64)
    ensures points { piece.new.points ≡ piece.old.points }
    ensures mode { piece.new.mode ≡ piece.old.mode }
    ensures values { piece.new.values ≡ slice_set piece.old.values place value }
{
    if place < piece.len() {
        piece.set(place, value);
    }
}
