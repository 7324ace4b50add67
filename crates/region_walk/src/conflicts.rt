//! Whether needs conflict.

ghost use Rattle.std.specs.Prelude.{◌≡◌, ◌≤◌, ◌+◌, All};
ghost use Rattle.std.specs.List.{list_any};
ghost use Rattle.region_tree.specs.Needs.{AreNeeds, IsNeed, requirement_of, requirements_of};
ghost use Rattle.region_tree.specs.Requirements.{conflict, interfere};
ghost use Rattle.region_finder.specs.Listings.{IsPlaced};
ghost use Rattle.region_walk.specs.Placing.{needs_placed};

use crate::placed::Placed;
use region_finder::{Probe, Steps};
use region_tree::Need;
use std::sync::ledger::Ledger;

/// Whether two needs conflict. The points of their nodes are tested last.
pub fn conflict<L: Ledger, P: Probe<L>>(
    tree: &P,
    one: &Need,
    other: &Need,
    steps: &mut Steps<L>,
) -> bool
    requires first { IsNeed (P.Paths.forest tree.now) one.now }
    requires second { IsNeed (P.Paths.forest tree.now) other.now }
    ensures value { result ≡ conflict (requirement_of (P.Paths.forest tree.now) one.now)
        (requirement_of (P.Paths.forest tree.now) other.now) }
    ensures steps { steps.old ≤ steps.new }
    ensures bound { steps.new ≤ steps.old + 1 }
{
    one.root.0 == other.root.0
        && one.field == other.field
        && one.mode.conflicts(other.mode)
        && tree.share(one.node, other.node, steps)
}

/// Whether a need conflicts with one of these.
fn conflicts_with_any<L: Ledger, P: Probe<L>>(
    tree: &P,
    need: &Need,
    others: &[Placed],
    steps: &mut Steps<L>,
) -> bool
    requires first { IsNeed (P.Paths.forest tree.now) need.now }
    requires second { All (IsPlaced (P.Paths.forest tree.now)) others.now }
    ensures value { result ≡ list_any (conflict (requirement_of (P.Paths.forest tree.now) need.now))
        (requirements_of (P.Paths.forest tree.now) (needs_placed others.now)) }
    ensures steps { steps.old ≤ steps.new }
{
    for other in others {
        if conflict(tree, need, other.need(), steps) {
            return true;
        }
    }
    false
}

/// Whether some need of the first list conflicts with one of the second.
pub fn any_conflict<L: Ledger, P: Probe<L>>(
    tree: &P,
    needs: &[Need],
    others: &[Placed],
    steps: &mut Steps<L>,
) -> bool
    requires first { AreNeeds (P.Paths.forest tree.now) needs.now }
    requires second { All (IsPlaced (P.Paths.forest tree.now)) others.now }
    ensures value { result ≡ interfere (requirements_of (P.Paths.forest tree.now) needs.now)
        (requirements_of (P.Paths.forest tree.now) (needs_placed others.now)) }
    ensures steps { steps.old ≤ steps.new }
{
    for need in needs {
        if conflicts_with_any(tree, need, others, steps) {
            return true;
        }
    }
    false
}
