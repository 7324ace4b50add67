//! Reductions of pieces.

ghost use Rattle.std.specs.Prelude.{◌≡◌, ◌≤◌, ◌+◌, ◌++◌, IfSome, filter, length, not};
ghost use Rattle.logical_map.specs.Gives.{is_reduction, reductions_on};
ghost use Rattle.physical_instances.specs.Instances.{folds_of};

use lane_kernels::Mode;
use reduction_folds::Pending;
use region_tree::{Part, Piece, RootId};

pub(crate) fn is_reduction(piece: &Piece) -> bool
    ensures { result ≡ is_reduction piece.now }
{
    matches!(piece.mode, Mode::Reduce(_))
}

/// How many reductions parts have on a field of a root, where a number counts them.
pub(crate) fn count_on(parts: &[Part], root: RootId, field: u8) -> Option<usize>
    ensures { IfSome result (λ n. n ≡ reductions_on parts.now root.0 field) }
{
    let mut count = 0_usize;
    for part in parts {
        if part.root.0 == root.0 && part.field == field {
            count = count.checked_add(count_reductions(part.pieces.as_slice()))?;
        }
    }
    Some(count)
}

pub(crate) fn count_reductions(pieces: &[Piece]) -> usize
    ensures { result ≡ length (filter is_reduction pieces.now) }
{
    pieces.iter().filter(|piece| is_reduction(piece)).count()
}

/// Moves the reductions of pieces behind those that wait, which have room for them.
pub(crate) fn take_reductions(pieces: &mut Vec<Piece>, pending: &mut Pending)
    requires { length (filter is_reduction pieces.old.items) ≤ pending.old.spare }
    ensures folds { pending.new.folds ≡ pending.old.folds ++ folds_of pieces.old.items }
    ensures pieces { pieces.new.items ≡ filter (λ h. not (is_reduction h)) pieces.old.items }
    ensures spare { pending.old.spare ≤ pending.new.spare + length (filter is_reduction pieces.old.items) }
{
    let mut place = 0;
    while place < pieces.len() {
        if let Mode::Reduce(op) = pieces[place].mode {
            let Piece { points, values, .. } = pieces.remove(place);
            let Ok(()) = pending.add(op, points, values.into_vec()) else {
                unreachable!()
            };
        } else {
            place += 1;
        }
    }
}
