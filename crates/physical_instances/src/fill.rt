//! A part that is filled in chunks.

ghost use Rattle.std.specs.Prelude.{◌≡◌, ◌↔◌, ◌<◌, ◌≤◌, ◌+◌, ◌-◌, min, IfOk, IfSome, get_or, length, map, pos, true, ℕ};
ghost use Rattle.std.specs.Option.{option_copied};
ghost use Rattle.plain_values.specs.Points.{has};
ghost use Rattle.logical_map.specs.Fills.{blank, chunk, elements_of, moved_beside, moved_piece, moved_pieces, number_for};
ghost use Rattle.physical_instances.specs.Instances.{ArePut};
ghost use Rattle.physical_instances.specs.Fields.{column_if};
ghost use Rattle.physical_instances.specs.Kept.{IsFull};
ghost use Rattle.physical_instances.specs.declared.fill.Filled.TheVariants.{Full};

use crate::copying::copy_pieces;
use crate::fields::FieldInstances;
use lane_kernels::{FieldKind, Mode};
use plain_values::Sequence;
use point_sets::PointSet;
use region_tree::{Part, Piece, RootId};
use std::alloc::{AllocError, Global};
use std::marker::Model;
use std::mem;

/// How many elements are moved at a time.
const CHUNK: usize = 4096;

/// A part of which the first elements have their numbers, piece by piece and point by point.
#[derive(Drop)]
pub struct Fill {
    root: RootId,
    field: u8,
    kind: FieldKind,
    pieces: Vec<Piece>,
    moved: usize,
    count: usize,
}

impl Model for Fill {
    ghost use Rattle.std.specs.Prelude.{◌≡◌, ◌≤◌};
    ghost use Rattle.logical_map.specs.Fills.{Filling, elements_of};

    ghost Value = { Filling };

    ghost view = { λ f. record {
      root = f.root.0;
      field = f.field;
      kind = f.kind;
      pieces = f.pieces.items;
      moved = f.moved;
    } };

    ghost invariant = { λ f. (f.count ≡ elements_of f.pieces.items) × (f.moved ≤ f.count) };
}

/// Whether elements are left to be moved.
#[derive(Clone, Copy, Debug, PartialEq, Eq)]
pub enum Filled {
    More,
    Full,
}

impl Fill {
    /// Before anything is moved. More elements than a number counts count as a want of memory.
    pub(crate) fn new(
        alloc: Global,
        root: RootId,
        field: u8,
        kind: FieldKind,
        wanted: Vec<(PointSet, Mode)>,
    ) -> Result<Fill, AllocError>
        ensures { IfOk result (λ f. f ≡ record {
          root = root.0;
          field = field;
          kind = kind;
          pieces = map blank wanted.items;
          moved = 0;
        }) }
    {
        let pieces = blank_pieces(alloc, wanted)?;
        let Some(count) = count_elements(pieces.as_slice()) else {
            return Err(AllocError);
        };
        Ok(Fill {
            root,
            field,
            kind,
            pieces,
            moved: 0,
            count,
        })
    }

    /// The root whose points it gathers.
    pub fn root(&self) -> RootId
        ensures { result.0 ≡ self.now.root }
    {
        self.root
    }

    /// The field whose numbers it gathers.
    pub fn field(&self) -> u8
        ensures { result ≡ self.now.field }
    {
        self.field
    }

    /// How many elements are left to be moved.
    pub fn left(&self) -> usize
        ensures { result ≡ elements_of self.now.pieces - self.now.moved }
    {
        self.count - self.moved
    }

    /// The same fill once more.
    pub fn copy(&self) -> Result<Fill, AllocError>
        ensures { IfOk result (λ copy. copy ≡ self.now) }
    {
        let alloc = *self.pieces.allocator();
        Ok(Fill {
            root: self.root,
            field: self.field,
            kind: self.kind,
            pieces: copy_pieces(alloc, self.pieces.as_slice())?,
            moved: self.moved,
            count: self.count,
        })
    }

    /// The part. It takes no memory.
    pub fn part(self) -> Part
        ensures root { result.root.0 ≡ self.root }
        ensures field { result.field ≡ self.field }
        ensures kind { result.kind ≡ self.kind }
        ensures pieces { result.pieces ≡ self.pieces }
    {
        let Fill {
            root,
            field,
            kind,
            pieces,
            ..
        } = self;
        Part {
            root,
            field,
            kind,
            pieces: Sequence::from_vec(pieces),
        }
    }

    /// Moves the next elements from a field.
    #[tactic(auto, using(crate::proofs::Filling::same_elements))]
    pub(crate) fn advance(&mut self, field: Option<&FieldInstances>) -> Filled
        ensures fill { self.new ≡ record self.old {
          pieces = moved_pieces (column_if (option_copied field.entry)) self.old.moved chunk self.old.pieces;
          moved = min (self.old.moved + chunk) (elements_of self.old.pieces);
        } }
        ensures full { (result ≡ Full) ↔ IsFull self.new }
    {
        let alloc = *self.pieces.allocator();
        move_pieces(alloc, field, self.moved, &mut self.pieces);
        self.moved = moved_behind(self.moved, self.count);
        answer(self.moved, self.count)
    }
}

/// How many elements are moved behind the next chunk.
fn moved_behind(moved: usize, count: usize) -> usize
    requires { moved ≤ count }
    ensures { result ≡ min (moved + chunk) count }
{
    if count - moved <= CHUNK {
        count
    } else {
        moved + CHUNK
    }
}

/// Whether so many of a count are all.
fn answer(moved: usize, count: usize) -> Filled
    ensures { (result ≡ Full) ↔ (moved ≡ count) }
{
    if moved == count {
        Filled::Full
    } else {
        Filled::More
    }
}

fn blank_pieces(alloc: Global, wanted: Vec<(PointSet, Mode)>) -> Result<Vec<Piece>, AllocError>
    ensures { IfOk result (λ ps. ps.items ≡ map blank wanted.items) }
{
    let mut pieces = Vec::new(alloc);
    for (points, mode) in wanted {
        pieces.push(blank(alloc, points, mode)?)?;
    }
    Ok(pieces)
}

fn blank(alloc: Global, points: PointSet, mode: Mode) -> Result<Piece, AllocError>
    ensures { IfOk result (λ p. p ≡ blank (points, mode)) }
{
    let values = vec![in alloc; 0_i64; points.len() as usize]?;
    Ok(Piece {
        points,
        mode,
        values: Sequence::from_vec(values),
    })
}

/// How many elements pieces have, where a number counts them.
fn count_elements(pieces: &[Piece]) -> Option<usize>
    ensures { IfSome result (λ n. n ≡ elements_of pieces.now) }
{
    let mut count = 0_usize;
    for piece in pieces {
        count = count.checked_add(piece.len())?;
    }
    Some(count)
}

/// Moves the next chunk of the elements of pieces, where so many were moved before.
fn move_pieces(alloc: Global, field: Option<&FieldInstances>, moved: usize, pieces: &mut Vec<Piece>)
    ensures { pieces.new.items ≡ moved_pieces (column_if (option_copied field.entry)) moved chunk pieces.old.items }
{
    let mut behind = moved;
    let mut next = CHUNK;
    for place in 0..pieces.len() {
        let piece = &mut pieces[place];
        let count = piece.len();
        move_piece(alloc, field, behind, next, piece);
        next = next.saturating_sub(count.saturating_sub(behind));
        behind = behind.saturating_sub(count);
    }
}

/// Moves so many elements of a piece, behind so many that were moved before.
fn move_piece(
    alloc: Global,
    field: Option<&FieldInstances>,
    behind: usize,
    next: usize,
    piece: &mut Piece,
)
    ensures { piece.new ≡ moved_piece (column_if (option_copied field.entry)) behind next piece.old }
{
    let count = piece.points.len() as usize;
    let first = behind.min(count);
    let end = behind.saturating_add(next).min(count);
    let mut values = mem::replace(&mut piece.values, Sequence::new(alloc)).into_vec();
    move_values(
        field,
        piece.mode,
        &piece.points,
        first,
        end,
        values.as_mut_slice(),
    );
    piece.values = Sequence::from_vec(values);
}

/// Moves the elements from a place to another: those that stand behind one another at once.
fn move_values(
    field: Option<&FieldInstances>,
    mode: Mode,
    points: &PointSet,
    first: usize,
    end: usize,
    values: &mut [i64],
)
    requires order { first ≤ end }
    requires end { end ≤ length points.now }
    requires beside { length values.old ≡ length points.now }
    ensures { values.new ≡ moved_beside (number_for (column_if (option_copied field.entry)) mode) first (end - first) points.now values.old }
{
    let mut place = first;
    while place < end {
        place += move_run(field, mode, points, place, end - place, values);
    }
}

/// Moves the elements from a place on that stand behind one another, at least one and at most so many, and tells how
/// many.
fn move_run(
    field: Option<&FieldInstances>,
    mode: Mode,
    points: &PointSet,
    place: usize,
    most: usize,
    values: &mut [i64],
) -> usize
    requires some { 0 < most }
    requires most { place + most ≤ length points.now }
    requires beside { length values.old ≡ length points.now }
    ensures some { 0 < result }
    ensures most { result ≤ most }
    ensures values { ArePut (number_for (column_if (option_copied field.entry)) mode) points.now place result values.old values.new }
{
    let most = most.min(points.len() as usize - place);
    let Some(point) = points.at(place as u32) else {
        unreachable!()
    };
    let run = run_for(field, mode, points, point, most);
    if run.is_empty() {
        values[place] = number_for(field, mode, point);
        return 1;
    }
    for offset in 0..run.len() {
        values[place + offset] = run[offset];
    }
    run.len()
}

/// The numbers of a field for points that follow one another, at most so many; none where they don't stand so or are
/// those of a reduction.
fn run_for<'a>(
    field: Option<&'a FieldInstances>,
    mode: Mode,
    points: &PointSet,
    point: u32,
    most: usize,
) -> &'a [i64]
    ensures most { length result.now ≤ most }
    ensures numbers { (k : ℕ) → k < length result.now
        → number_for (column_if (option_copied field.entry)) mode (point + k) ≡ get_or result.now k (pos 0) }
    ensures points { (k : ℕ) → k < length result.now → has points.now (point + k) ≡ true }
{
    match (field, mode, points.stretch_from(point)) {
        (_, Mode::Reduce(_), _) | (None, _, _) | (_, _, None) => &[],
        (Some(found), _, Some(stretch)) if stretch.start == point => {
            found.run_from(point, most.min((stretch.end - point) as usize))
        }
        _ => &[],
    }
}

/// What an element gets at a point that is filled in a mode; of a field that isn't there 0, and for a reduction the
/// identity at the width of a truth.
fn number_for(field: Option<&FieldInstances>, mode: Mode, point: u32) -> i64
    ensures { result ≡ number_for (column_if (option_copied field.entry)) mode point }
{
    match (field, mode) {
        (Some(found), _) => found.number_for(mode, point),
        (None, Mode::Reduce(op)) => op.identity(FieldKind::Truth.width()),
        (None, _) => 0,
    }
}
