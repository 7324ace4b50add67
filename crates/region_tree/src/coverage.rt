//! Whether the needs of a task are within those of another.

ghost use Rattle.std.specs.Prelude.{◌≡◌, ◌↔◌, IsTrue, List, true};
ghost use Rattle.plain_values.specs.Points.{within};
ghost use Rattle.std.specs.List.{list_all};
ghost use Rattle.region_tree.specs.Modes.{HasAllPoints, IsWider, WritesAll, is_in_mode};
ghost use Rattle.region_tree.specs.Needs.{AreNeeds, IsNeed, requirement_of, requirements_of};
ghost use Rattle.region_tree.specs.Requirements.{IsWithin, Requirement, covers};
ghost use Rattle.region_tree.specs.Requirements.{is_subsumed};
ghost use Rattle.region_tree.specs.Requirements.{is_within, mode_at};
ghost use Rattle.region_tree.specs.Trees.{IsRegion, set_at};

use crate::content::Node;
use crate::modes::{is_subsumed, mode_at};
use crate::needs::{Need, Needs};
use crate::tree::{RootId, Tree};
use lane_kernels::Mode;
use point_sets::PointSet;

/// Whether the first needs are within the second: at each root, field and point the first have no
/// mode, or the join of their modes equals that of the second, or the second join to Write.
pub fn within(tree: &Tree, a: &Needs, b: &Needs) -> bool
    requires first { AreNeeds tree.now a.now.items }
    requires second { AreNeeds tree.now b.now.items }
    ensures value { result ≡ is_within
        (requirements_of tree.now a.now.items) (requirements_of tree.now b.now.items) }
    ensures points { IsTrue result ↔ IsWithin
        (requirements_of tree.now a.now.items) (requirements_of tree.now b.now.items) }
{
    are_covered(tree, a.items.as_slice(), b.items.as_slice())
}

/// Whether the modes at each point of each need are covered.
fn are_covered(tree: &Tree, ours: &[Need], theirs: &[Need]) -> bool
    requires first { AreNeeds tree.now ours.now }
    requires second { AreNeeds tree.now theirs.now }
    ensures { result ≡ is_within
        (requirements_of tree.now ours.now) (requirements_of tree.now theirs.now) }
{
    for need in ours {
        if !covers(tree, ours, theirs, need) {
            return false;
        }
    }
    true
}

/// Whether the modes at each point of a need are covered.
fn covers(tree: &Tree, ours: &[Need], theirs: &[Need], need: &Need) -> bool
    requires first { AreNeeds tree.now ours.now }
    requires second { AreNeeds tree.now theirs.now }
    requires need { IsNeed tree.now need.now }
    ensures { result ≡ covers (requirements_of tree.now ours.now)
        (requirements_of tree.now theirs.now) (requirement_of tree.now need.now) }
{
    is_settled(tree, ours, theirs, need)
        || covers_points(
            tree,
            ours,
            theirs,
            need.root,
            need.field,
            tree.set(need.node),
        )
}

/// Whether a need is covered, as can be seen without going through its points.
fn is_settled(tree: &Tree, ours: &[Need], theirs: &[Need], need: &Need) -> bool
    requires first { AreNeeds tree.now ours.now }
    requires second { AreNeeds tree.now theirs.now }
    requires need { IsNeed tree.now need.now }
    ensures { IsTrue result → covers (requirements_of tree.now ours.now)
        (requirements_of tree.now theirs.now) (requirement_of tree.now need.now) ≡ true }
{
    is_written(tree, theirs, need) || is_shared(tree, ours, theirs, need)
}

/// Whether some need writes all points of another one.
fn is_written(tree: &Tree, theirs: &[Need], need: &Need) -> bool
    requires second { AreNeeds tree.now theirs.now }
    requires need { IsNeed tree.now need.now }
    ensures { IsTrue result → (ours : List Requirement) → covers ours
        (requirements_of tree.now theirs.now) (requirement_of tree.now need.now) ≡ true }
{
    for other in theirs {
        if writes_all(tree, other, need) {
            return true;
        }
    }
    false
}

/// Whether all needs of a need's field have its mode, and some need of the other side has all its
/// points.
fn is_shared(tree: &Tree, ours: &[Need], theirs: &[Need], need: &Need) -> bool
    requires first { AreNeeds tree.now ours.now }
    requires second { AreNeeds tree.now theirs.now }
    requires need { IsNeed tree.now need.now }
    ensures { IsTrue result → covers (requirements_of tree.now ours.now)
        (requirements_of tree.now theirs.now) (requirement_of tree.now need.now) ≡ true }
{
    are_in_mode(ours, need) && are_in_mode(theirs, need) && has_all_points(tree, theirs, need)
}

/// Whether all needs of a need's field have its mode.
fn are_in_mode(needs: &[Need], need: &Need) -> bool
    ensures { result ≡ list_all (is_in_mode need.now) needs.now }
{
    for other in needs {
        if !is_in_mode(other, need) {
            return false;
        }
    }
    true
}

/// Whether a need has another one's mode, if it is of that one's field.
fn is_in_mode(other: &Need, need: &Need) -> bool
    ensures { result ≡ is_in_mode need.now other.now }
{
    !(other.root.0 == need.root.0 && other.field == need.field) || need.mode == other.mode
}

/// Whether some need has all points of another one, in its field.
fn has_all_points(tree: &Tree, theirs: &[Need], need: &Need) -> bool
    requires second { AreNeeds tree.now theirs.now }
    requires need { IsNeed tree.now need.now }
    ensures { IsTrue result
        → HasAllPoints (requirements_of tree.now theirs.now) (requirement_of tree.now need.now) }
{
    for other in theirs {
        if is_wider(tree, other, need) {
            return true;
        }
    }
    false
}

/// Whether a need has all points of another one, in its field.
fn is_wider(tree: &Tree, other: &Need, need: &Need) -> bool
    requires first { IsNeed tree.now other.now }
    requires second { IsNeed tree.now need.now }
    ensures { IsTrue result
        → IsWider (requirement_of tree.now other.now) (requirement_of tree.now need.now) }
{
    other.root.0 == need.root.0
        && other.field == need.field
        && lies_within(tree, need.node, other.node)
}

/// Whether a need writes all points of another one.
fn writes_all(tree: &Tree, other: &Need, need: &Need) -> bool
    requires first { IsNeed tree.now other.now }
    requires second { IsNeed tree.now need.now }
    ensures { IsTrue result → WritesAll
        (requirement_of tree.now other.now) (requirement_of tree.now need.now) }
{
    other.root.0 == need.root.0
        && other.field == need.field
        && other.mode == Mode::Write
        && lies_within(tree, need.node, other.node)
}

/// Whether a region has all points of another one. The tree is asked before sets are.
fn lies_within(tree: &Tree, region: Node, outer: Node) -> bool
    requires first { IsRegion tree.now region.0 }
    requires second { IsRegion tree.now outer.0 }
    ensures { result ≡ within (set_at tree.now region.0) (set_at tree.now outer.0) }
{
    tree.lies_under(region, outer) || tree.set(region).within(tree.set(outer))
}

/// Whether the modes are covered at each of these points.
fn covers_points(
    tree: &Tree,
    ours: &[Need],
    theirs: &[Need],
    root: RootId,
    field: u8,
    points: &PointSet,
) -> bool
    requires first { AreNeeds tree.now ours.now }
    requires second { AreNeeds tree.now theirs.now }
    ensures { result ≡ list_all (λ p. is_subsumed
        (mode_at (requirements_of tree.now ours.now) root.0 field p)
        (mode_at (requirements_of tree.now theirs.now) root.0 field p)) points.now }
{
    for place in 0..points.len() {
        let Some(point) = points.at(place) else {
            unreachable!()
        };
        let one = mode_at(tree, ours, root, field, point);
        let other = mode_at(tree, theirs, root, field, point);
        if !is_subsumed(one, other) {
            return false;
        }
    }
    true
}
