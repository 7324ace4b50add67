//! Parts that go back.

ghost use Rattle.std.specs.Prelude.{◌≡◌, ◌≤◌, ◌+◌, filter, length, ℕ};
ghost use Rattle.board_terms.specs.Gives.{with_part, with_parts};
ghost use Rattle.logical_map.specs.Gives.{add_reduction, is_reduction, put_back, reductions_in};
ghost use Rattle.logical_map.specs.Maps.{IsThere, LogicalMap};
ghost use Rattle.physical_instances.specs.Kept.{map_of, spare_of};
ghost use Rattle.board_gives.specs.Rooms.{HasRoom};

use physical_instances::Contents;
use plain_values::Sequence;
use region_tree::Part;

/// Gives parts back for whose reductions there is room: the reductions are folded in, and the pieces for writing are
/// written.
#[tactic(auto, using(crate::proofs::Returns::room_behind, crate::proofs::Returns::room_for_first))]
pub fn give_parts(contents: &mut Contents, parts: Sequence<Part>)
    requires { HasRoom contents.old parts }
    ensures { map_of contents.new ≡ with_parts parts (map_of contents.old) }
{
    for part in parts.into_vec() {
        give_part(contents, part);
    }
}

fn give_part(contents: &mut Contents, part: Part)
    requires { IsThere (map_of contents.old) part.root.0 part.field
        → length (filter is_reduction part.pieces) ≤ spare_of contents.old part.root.0 part.field }
    ensures map { map_of contents.new ≡ with_part part (map_of contents.old) }
    ensures spare { (root field : ℕ) → spare_of contents.old root field ≤ spare_of contents.new root field + reductions_in root field part }
{
    let mut rest = part;
    fold_reductions(contents, &mut rest);
    contents.put_back(rest);
}

/// Folds the reductions of a part in. A field that isn't there is left out.
#[tactic(auto, using(crate::proofs::Returns::fold_absent, crate::proofs::Returns::same_writes))]
fn fold_reductions(contents: &mut Contents, part: &mut Part)
    requires { IsThere (map_of contents.old) part.old.root.0 part.old.field
        → length (filter is_reduction part.old.pieces) ≤ spare_of contents.old part.old.root.0 part.old.field }
    ensures map { map_of contents.new ≡ add_reduction part.old (map_of contents.old) }
    ensures part { (roots : LogicalMap) → put_back part.new roots ≡ put_back part.old roots }
    ensures spare { (root field : ℕ) → spare_of contents.old root field ≤ spare_of contents.new root field + reductions_in root field part.old }
{
    if contents.count(part.root, part.field).is_some() {
        match contents.add_reduction(part) {
            Ok(()) => (),
            Err(_) => unreachable!(),
        }
    }
}
