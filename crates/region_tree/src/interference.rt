//! Whether the needs of two tasks depend on their order.

ghost use Rattle.std.specs.Prelude.{◌≡◌, ◌↔◌, IsTrue};
ghost use Rattle.std.specs.List.{list_any};
ghost use Rattle.plain_values.specs.Points.{meets};
ghost use Rattle.region_tree.specs.Needs.{AreNeeds, IsNeed, requirement_of, requirements_of};
ghost use Rattle.region_tree.specs.Requirements.{InterfereSomewhere, conflict, interfere};
ghost use Rattle.region_tree.specs.Trees.{IsRegion, set_at};

use crate::content::Node;
use crate::needs::{Need, Needs};
use crate::tree::Tree;

/// Whether two tasks interfere: a need of the one and a need of the other share a root, a field and
/// a point, and don't both read or both reduce with the same operator.
pub fn interferes(tree: &Tree, a: &Needs, b: &Needs) -> bool
    requires first { AreNeeds tree.now a.now.items }
    requires second { AreNeeds tree.now b.now.items }
    ensures value { result ≡ interfere
        (requirements_of tree.now a.now.items) (requirements_of tree.now b.now.items) }
    ensures points { IsTrue result ↔ InterfereSomewhere
        (requirements_of tree.now a.now.items) (requirements_of tree.now b.now.items) }
{
    any_conflicts(tree, a.items.as_slice(), b.items.as_slice())
}

/// Whether some need of the first list conflicts with one of the second.
fn any_conflicts(tree: &Tree, needs: &[Need], others: &[Need]) -> bool
    requires first { AreNeeds tree.now needs.now }
    requires second { AreNeeds tree.now others.now }
    ensures { result ≡ interfere
        (requirements_of tree.now needs.now) (requirements_of tree.now others.now) }
{
    for need in needs {
        if conflicts_with_any(tree, need, others) {
            return true;
        }
    }
    false
}

fn conflicts_with_any(tree: &Tree, need: &Need, others: &[Need]) -> bool
    requires first { IsNeed tree.now need.now }
    requires second { AreNeeds tree.now others.now }
    ensures { result
        ≡ list_any (conflict (requirement_of tree.now need.now))
        (requirements_of tree.now others.now) }
{
    for other in others {
        if are_in_conflict(tree, need, other) {
            return true;
        }
    }
    false
}

/// Whether two needs conflict. The tree is asked before sets are.
fn are_in_conflict(tree: &Tree, one: &Need, other: &Need) -> bool
    requires first { IsNeed tree.now one.now }
    requires second { IsNeed tree.now other.now }
    ensures { result
        ≡ conflict (requirement_of tree.now one.now) (requirement_of tree.now other.now) }
{
    one.root.0 == other.root.0
        && one.field == other.field
        && one.mode.conflicts(other.mode)
        && share_a_point(tree, one.node, other.node)
}

/// Whether two regions share a point.
fn share_a_point(tree: &Tree, a: Node, b: Node) -> bool
    requires first { IsRegion tree.now a.0 }
    requires second { IsRegion tree.now b.0 }
    ensures { result ≡ meets (set_at tree.now a.0) (set_at tree.now b.0) }
{
    !tree.separated(a, b) && tree.set(a).meets(tree.set(b))
}
