//! Operations that wait.

ghost use Rattle.std.specs.Prelude.{◌≡◌, ◌<◌, [], IsOk, OnErr, OnOk};
ghost use Rattle.dependence_graph.specs.Graphs.{parked, parked_on};
ghost use Rattle.dependence_graph.specs.Issues.{IsOwn, IsPartOf, TakesNone};
ghost use Rattle.dependence_graph.specs.Knots.{knot_at};
ghost use Rattle.dependence_graph.specs.declared.stage.Stage.TheVariants.{Begun};
ghost use Rattle.region_finder.specs.Listings.{IsListingOf};

use dependence_graph::{Graph, Waiting};
use region_finder::Steps;
use region_forest::Forest;
use region_tree::OpNumber;
use region_walk::WalkFinder;
use std::alloc::AllocError;
use std::marker::Brand;
use std::sync::ledger::{Blank, Ledger};

/// What waits for what, by the finder that boards use.
pub type Waits = Graph<WalkFinder>;

/// An operation that has begun waits. Only to wait for a part may want memory.
pub fn park(graph: &mut Waits, tree: &Forest, op: OpNumber, on: Waiting) -> Result<(), AllocError>
    requires begun { (knot_at graph.old.knots op.0).stage ≡ Begun }
    requires listing { IsListingOf tree.now graph.old.listing }
    requires part { IsPartOf tree.now on }
    requires own { IsOwn graph.old.knots op.0 on }
    ensures parked { OnOk result (graph.new ≡ parked tree.now graph.old op.0 on) }
    ensures unchanged { OnErr result (graph.new ≡ graph.old) }
    ensures sure { TakesNone on → IsOk result }
{
    park_by::<Brand>(Blank::new(1), graph, tree, op, on)
}

fn park_by<L: Ledger>(
    blank: Blank,
    graph: &mut Waits,
    tree: &Forest,
    op: OpNumber,
    on: Waiting,
) -> Result<(), AllocError>
    requires name { blank.name ≡ L.name }
    requires parts { blank.parts ≡ L.parts }
    requires some { 0 < L.parts }
    requires begun { (knot_at graph.old.knots op.0).stage ≡ Begun }
    requires listing { IsListingOf tree.now graph.old.listing }
    requires part { IsPartOf tree.now on }
    requires own { IsOwn graph.old.knots op.0 on }
    ensures parked { OnOk result (graph.new ≡ parked tree.now graph.old op.0 on) }
    ensures unchanged { OnErr result (graph.new ≡ graph.old) }
    ensures sure { TakesNone on → IsOk result }
{
    let mut steps = Steps::<L>::new(blank);
    graph.park(tree, op, on, &mut steps)
}

/// An operation that has begun waits for nothing.
pub fn wait_for_nothing(graph: &mut Waits, tree: &Forest, op: OpNumber)
    requires begun { (knot_at graph.old.knots op.0).stage ≡ Begun }
    requires listing { IsListingOf tree.now graph.old.listing }
    ensures { graph.new ≡ parked_on graph.old op.0 [] }
{
    match park(graph, tree, op, Waiting::Nothing) {
        Ok(()) => (),
        Err(_) => unreachable!(),
    }
}
