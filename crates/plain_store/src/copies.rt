//! Parts that are copied or lent out of the roots.

ghost use Rattle.std.specs.Prelude.{◌≡◌, ◌↔◌, [], ◌∷◌, IsTrue, IfOk, OnOk, get_or, length, map, pos};
ghost use Rattle.lane_kernels.specs.declared.numbers.Mode.TheVariants.{Write};
ghost use Rattle.plain_values.specs.Points.{points};
ghost use Rattle.machine_terms.specs.Orders.{fetch_part};
ghost use Rattle.machine_terms.specs.declared.order.Contents.{Contents as contents};
ghost use Rattle.plain_store.specs.Columns.{IsThere, column_of, piece_on};
ghost use Rattle.plain_store.specs.Loans.{Stands, copied_out, lent_out, whole};

use crate::columns::{column_of, swap_column};
use crate::contents::{kind_of, number_in};
use crate::holder::Holder;
use crate::loan::{Loan, is_lent};
use lane_kernels::{FieldKind, Mode};
use plain_values::Sequence;
use point_sets::PointSet;
use region_tree::{Part, Piece, RootId, part_of};
use std::alloc::{AllocError, Global};
use task_code::Code;

/// Gives a holder the part that it wants: a part of all points of its root for writing is lent, and any
/// other is copied. A field that is lent already counts as out of memory.
pub fn fetch_part(
    alloc: Global,
    code: &Code,
    root: RootId,
    field: u8,
    holder: &mut Holder,
) -> Result<(), AllocError>
    ensures { OnOk result ((c : contents) → Stands c holder.old → Stands c holder.new
        × (whole c holder.new ≡ fetch_part code.now root.0 field (whole c holder.old))) }
{
    if is_lent(holder.loans.as_slice(), root, field) {
        return Err(AllocError);
    }
    let kind = kind_of(code, &holder.instance.contents, root, field);
    let found = part_of(alloc, holder.instance.needs.as_slice(), root, field)?;
    let column = column_of(&holder.instance.contents, root, field);
    if root.0 < holder.instance.contents.made && is_whole(found.as_slice(), column) {
        lend(alloc, kind, &found[0].0, root, field, holder)
    } else {
        copy_out(alloc, kind, root, field, found, holder)
    }
}

/// Whether a part is one piece for writing, of all points of a field with these numbers.
fn is_whole(found: &[(PointSet, Mode)], column: &[i64]) -> bool
    ensures { IsTrue result ↔ found.now ≡ (points (length column.now), Write) ∷ [] }
{
    found.len() == 1 && found[0].1 == Mode::Write && is_all(&found[0].0, column.len())
}

/// Whether a set is all points of an index space of some size.
pub fn is_all(set: &PointSet, size: usize) -> bool
    ensures { IsTrue result ↔ set.now ≡ points size }
{
    if set.len() as usize != size {
        return false;
    }
    let Some(all) = set.stretch_from(0) else {
        return true;
    };
    if all.start != 0 || all.end as usize != size {
        return false;
    }
    set.stretch_from(all.end).is_none()
}

/// Lends a field to a part over all points of its root.
#[tactic(auto, using(crate::proofs::Giving::all_counted))]
fn lend(
    alloc: Global,
    kind: FieldKind,
    all: &PointSet,
    root: RootId,
    field: u8,
    holder: &mut Holder,
) -> Result<(), AllocError>
    requires { all.now ≡ points (length (column_of holder.now.instance.contents root.0 field)) }
    ensures there { OnOk result (IsThere holder.old.instance.contents root.0 field) }
    ensures holder { OnOk result (holder.new ≡ lent_out kind root.0 field holder.old) }
{
    let kept = &mut holder.instance.contents;
    let values = swap_column(alloc, kept, root, field, Sequence::new(alloc))?;
    let count = values.len();
    let pieces = one_piece(alloc, all, values)?;
    holder.instance.parts.push(Part {
        root,
        field,
        kind,
        pieces,
    })?;
    holder.loans.push(Loan { root, field, count })
}

/// One piece for writing.
fn one_piece(
    alloc: Global,
    points: &PointSet,
    values: Sequence<i64>,
) -> Result<Sequence<Piece>, AllocError>
    requires { length points.now ≡ length values }
    ensures { IfOk result (λ ps. ps ≡ record { points = points.now; mode = Write; values = values } ∷ []) }
{
    let mut pieces = Sequence::new(alloc);
    pieces.push(Piece {
        points: points.copy()?,
        mode: Mode::Write,
        values,
    })?;
    Ok(pieces)
}

/// Adds a part with copies of the numbers that are kept.
fn copy_out(
    alloc: Global,
    kind: FieldKind,
    root: RootId,
    field: u8,
    found: Vec<(PointSet, Mode)>,
    holder: &mut Holder,
) -> Result<(), AllocError>
    ensures { OnOk result (holder.new ≡ copied_out kind root.0 field found.items holder.old) }
{
    let column = column_of(&holder.instance.contents, root, field);
    let pieces = copied_pieces(alloc, kind, column, found)?;
    holder.instance.parts.push(Part {
        root,
        field,
        kind,
        pieces,
    })
}

fn copied_pieces(
    alloc: Global,
    kind: FieldKind,
    column: &[i64],
    found: Vec<(PointSet, Mode)>,
) -> Result<Sequence<Piece>, AllocError>
    ensures { IfOk result (λ ps. ps ≡ map (λ q. piece_on kind column.now q.1 q.0) found.items) }
{
    let mut pieces = Vec::new(alloc);
    for (points, mode) in found {
        pieces.push(piece_on(alloc, kind, column, mode, points)?)?;
    }
    Ok(Sequence::from_vec(pieces))
}

/// A piece with the numbers that are kept, or with the identity of its reduction.
fn piece_on(
    alloc: Global,
    kind: FieldKind,
    column: &[i64],
    mode: Mode,
    points: PointSet,
) -> Result<Piece, AllocError>
    ensures { IfOk result (λ p. p ≡ piece_on kind column.now mode points) }
{
    let values = match mode {
        Mode::Reduce(op) => vec![in alloc; op.identity(kind.width()); points.len() as usize]?,
        Mode::Read | Mode::Write => numbers_at(alloc, column, &points)?,
    };
    Ok(Piece {
        points,
        mode,
        values: Sequence::from_vec(values),
    })
}

/// The numbers at some points.
fn numbers_at(alloc: Global, column: &[i64], points: &PointSet) -> Result<Vec<i64>, AllocError>
    ensures { IfOk result (λ v. v.items ≡ map (λ p. get_or column.now p (pos 0)) points.now) }
{
    let mut numbers = Vec::new(alloc);
    for place in 0..points.len() {
        let Some(point) = points.at(place) else {
            unreachable!()
        };
        numbers.push(number_in(column, point))?;
    }
    Ok(numbers)
}
