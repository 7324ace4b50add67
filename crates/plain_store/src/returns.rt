//! Parts that go back into the roots.

ghost use Rattle.std.specs.Prelude.{◌≡◌, ◌≤◌, [], ◌∷◌, ℤ, List, drop, length, slice_set, IfOk, IfSome, OnOk};
ghost use Rattle.lane_kernels.specs.declared.numbers.Mode.TheVariants.{Write};
ghost use Rattle.plain_values.specs.Points.{points};
ghost use Rattle.machine_terms.specs.Copies.{give_parts, give_pieces};
ghost use Rattle.machine_terms.specs.declared.order.Contents.{Contents as contents};
ghost use Rattle.plain_store.specs.Columns.{IsThere, column_of, number_given, pieces_given, points_given, put_column};
ghost use Rattle.plain_store.specs.Loans.{AreLent};

use crate::columns::swap_column;
use crate::contents::number_in;
use crate::copies::is_all;
use crate::loan::{Loan, is_lent};
use lane_kernels::{FieldKind, Mode};
use machine_terms::Contents;
use plain_values::Sequence;
use region_tree::{Part, Piece};
use std::alloc::{AllocError, Global};

/// Gives these parts back to the contents: numbers that were written are kept, and those of a reduction
/// are folded in. The loans are those of the parts, in their order; if they aren't, that counts as out
/// of memory.
#[tactic(auto, using(crate::proofs::Returning::give_next, crate::proofs::Returning::none_left))]
pub fn give_parts(
    alloc: Global,
    parts: Sequence<Part>,
    loans: &[Loan],
    kept: &mut Contents,
) -> Result<(), AllocError>
    ensures { OnOk result ((c : contents) → AreLent loans.now c kept.old → kept.new ≡ give_parts parts c) }
{
    let mut next = 0;
    for part in parts.into_vec() {
        next = give_part(alloc, part, loans, next, kept)?;
    }
    if next < loans.len() {
        return Err(AllocError);
    }
    Ok(())
}

/// Gives a part back, and returns the place of the next loan.
fn give_part(
    alloc: Global,
    part: Part,
    loans: &[Loan],
    next: usize,
    kept: &mut Contents,
) -> Result<usize, AllocError>
    requires { next ≤ length loans.now }
    ensures next { IfOk result (λ behind. behind ≤ length loans.now) }
    ensures contents { IfOk result (λ behind. (c : contents) → AreLent (drop next loans.now) c kept.old
        → AreLent (drop behind loans.now)
        (give_pieces part.kind part.root.0 part.field part.pieces c) kept.new) }
{
    if next < loans.len() && loans[next].is_of(part.root, part.field) {
        give_lent(alloc, part, loans[next].count, kept)?;
        Ok(next + 1)
    } else if is_lent(&loans[next..], part.root, part.field) {
        Err(AllocError)
    } else {
        give_copied(alloc, &part, kept)?;
        Ok(next)
    }
}

/// Gives a lent field back, of so many numbers.
fn give_lent(alloc: Global, part: Part, count: usize, kept: &mut Contents) -> Result<(), AllocError>
    ensures { OnOk result ((zs : List ℤ) × (length zs ≡ count)
        × (part.pieces ≡ record { points = points count; mode = Write; values = zs } ∷ [])
        × (kept.new ≡ put_column part.root.0 part.field zs kept.old)) }
{
    let Part {
        root,
        field,
        pieces,
        ..
    } = part;
    let Some(piece) = only_piece(pieces) else {
        return Err(AllocError);
    };
    if piece.mode != Mode::Write || piece.len() != count || !is_all(&piece.points, count) {
        return Err(AllocError);
    }
    let Piece { values, .. } = piece;
    swap_column(alloc, kept, root, field, values)?;
    Ok(())
}

/// The piece, if there is one alone.
fn only_piece(pieces: Sequence<Piece>) -> Option<Piece>
    ensures { IfSome result (λ h. pieces ≡ h ∷ []) }
{
    let mut pieces = pieces.into_vec();
    let last = pieces.pop();
    if pieces.is_empty() { last } else { None }
}

/// Gives back the pieces of a part that were copied.
fn give_copied(alloc: Global, part: &Part, kept: &mut Contents) -> Result<(), AllocError>
    ensures there { OnOk result (IsThere kept.old part.now.root.0 part.now.field) }
    ensures contents { OnOk result (kept.new ≡ put_column part.now.root.0 part.now.field
        (pieces_given part.now.kind part.now.pieces
        (column_of kept.old part.now.root.0 part.now.field)) kept.old) }
{
    let (root, field) = (part.root, part.field);
    let column = swap_column(alloc, kept, root, field, Sequence::new(alloc))?;
    let mut numbers = column.into_vec();
    give_pieces(part.kind, part.pieces.as_slice(), numbers.as_mut_slice());
    swap_column(alloc, kept, root, field, Sequence::from_vec(numbers))?;
    Ok(())
}

fn give_pieces(kind: FieldKind, pieces: &[Piece], column: &mut [i64])
    ensures { column.new ≡ pieces_given kind pieces.now column.old }
{
    for piece in pieces {
        give_points(kind, piece, column);
    }
}

fn give_points(kind: FieldKind, piece: &Piece, column: &mut [i64])
    ensures { column.new ≡ points_given kind piece.now.mode piece.now.points piece.now.values column.old }
{
    for place in 0..piece.points.len() {
        let Some(point) = piece.points.at(place) else {
            unreachable!()
        };
        let number = piece.values.as_slice()[place as usize];
        give_number(kind, piece.mode, point, number, column);
    }
}

fn give_number(kind: FieldKind, mode: Mode, point: u32, number: i64, column: &mut [i64])
    ensures { column.new ≡ number_given kind mode point number column.old }
{
    match mode {
        Mode::Read => {}
        Mode::Write => set_number(column, point, number),
        Mode::Reduce(op) => {
            let folded = op.apply(kind.width(), number_in(column, point), number);
            set_number(column, point, folded);
        }
    }
}

fn set_number(column: &mut [i64], point: u32, number: i64)
    ensures { column.new ≡ slice_set column.old point number }
{
    if (point as usize) < column.len() {
        column[point as usize] = number;
    }
}
