//! Copies of parts.

ghost use Rattle.std.specs.Prelude.{◌≡◌, IfOk};

use plain_values::Sequence;
use region_tree::{Part, Piece};
use std::alloc::{AllocError, Global};

/// The same piece once more.
fn copy_piece(piece: &Piece) -> Result<Piece, AllocError>
    ensures { IfOk result (λ copy. copy ≡ piece.now) }
{
    Ok(Piece {
        points: piece.points.copy()?,
        mode: piece.mode,
        values: piece.values.copy()?,
    })
}

/// The same pieces once more.
fn copy_pieces(alloc: Global, pieces: &[Piece]) -> Result<Sequence<Piece>, AllocError>
    ensures { IfOk result (λ copy. copy ≡ pieces.now) }
{
    let mut copy = Sequence::new(alloc);
    for piece in pieces {
        copy.push(copy_piece(piece)?)?;
    }
    Ok(copy)
}

/// The same parts once more.
pub fn copy_parts(alloc: Global, parts: &[Part]) -> Result<Sequence<Part>, AllocError>
    ensures { IfOk result (λ copy. copy ≡ parts.now) }
{
    let mut copy = Sequence::new(alloc);
    for part in parts {
        copy.push(Part {
            root: part.root,
            field: part.field,
            kind: part.kind,
            pieces: copy_pieces(alloc, part.pieces.as_slice())?,
        })?;
    }
    Ok(copy)
}
