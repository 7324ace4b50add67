//! Copies of parts.

ghost use Rattle.std.specs.Prelude.{◌≡◌, IfOk};

use plain_values::Sequence;
use region_tree::{Part, Piece};
use std::alloc::{AllocError, Global};

/// The same part once more.
pub fn copy_part(alloc: Global, part: &Part) -> Result<Part, AllocError>
    ensures { IfOk result (λ p. p ≡ part.now) }
{
    let pieces = copy_pieces(alloc, part.pieces.as_slice())?;
    Ok(Part {
        root: part.root,
        field: part.field,
        kind: part.kind,
        pieces: Sequence::from_vec(pieces),
    })
}

/// The same pieces once more.
pub(crate) fn copy_pieces(alloc: Global, pieces: &[Piece]) -> Result<Vec<Piece>, AllocError>
    ensures { IfOk result (λ copy. copy.items ≡ pieces.now) }
{
    let mut copy = Vec::new(alloc);
    for piece in pieces {
        copy.push(copy_piece(piece)?)?;
    }
    Ok(copy)
}

fn copy_piece(piece: &Piece) -> Result<Piece, AllocError>
    ensures { IfOk result (λ p. p ≡ piece.now) }
{
    Ok(Piece {
        points: piece.points.copy()?,
        mode: piece.mode,
        values: piece.values.copy()?,
    })
}
