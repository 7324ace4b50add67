//! The modes in which a field of a root is needed at a point.

ghost use Rattle.std.specs.Prelude.{◌≡◌};
ghost use Rattle.region_tree.specs.Needs.{AreNeeds, IsNeed, requirement_of, requirements_of};
ghost use Rattle.region_tree.specs.Requirements.{is_at, is_subsumed, join_onto, mode_at};

use crate::needs::Need;
use crate::tree::{RootId, Tree};
use lane_kernels::Mode;

/// The join of the modes in which needs have a field of a root at a point.
pub fn mode_at(tree: &Tree, needs: &[Need], root: RootId, field: u8, point: u32) -> Option<Mode>
    requires { AreNeeds tree.now needs.now }
    ensures { result ≡ mode_at (requirements_of tree.now needs.now) root.0 field point }
{
    let mut joined = None;
    for need in needs {
        if is_at(tree, need, root, field, point) {
            joined = join_onto(joined, need.mode);
        }
    }
    joined
}

/// Whether a need has a field of a root at a point.
fn is_at(tree: &Tree, need: &Need, root: RootId, field: u8, point: u32) -> bool
    requires { IsNeed tree.now need.now }
    ensures { result ≡ is_at root.0 field point (requirement_of tree.now need.now) }
{
    need.root.0 == root.0 && need.field == field && tree.set(need.node).has(point)
}

/// One more mode, joined to the earlier ones.
pub fn join_onto(joined: Option<Mode>, mode: Mode) -> Option<Mode>
    ensures { result ≡ join_onto joined mode }
{
    match joined {
        None => Some(mode),
        Some(earlier) => Some(earlier.join(mode)),
    }
}

/// Whether a mode at a point is subsumed by another one there: it is absent, the two are equal, or
/// the other is Write.
pub fn is_subsumed(ours: Option<Mode>, theirs: Option<Mode>) -> bool
    ensures { result ≡ is_subsumed ours theirs }
{
    match (ours, theirs) {
        (None, _) => true,
        (Some(_), None) => false,
        (Some(one), Some(other)) => one == other || other == Mode::Write,
    }
}
