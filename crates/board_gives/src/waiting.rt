//! Operations that wait for a part or for a child behind a segment.

ghost use Rattle.std.specs.Prelude.{◌≡◌, ◌==◌, ◌&&◌, All, IfOk, OnErr, OnOk, filter, slice_get};
ghost use Rattle.board_gives.specs.Gives.{IsIssuedBy, also_told, parked_with};
ghost use Rattle.board_terms.specs.declared.operation.Wait.TheVariants as wait_term;
ghost use Rattle.board_terms.specs.Gives.{is_on, waits_for};
ghost use Rattle.dependence_graph.specs.Graphs.{parked};
ghost use Rattle.dependence_graph.specs.Knots.{knot_at};
ghost use Rattle.dependence_graph.specs.declared.stage.Stage.TheVariants.{Begun};
ghost use Rattle.dependence_graph.specs.declared.stage.Waiting.TheVariants as graph_term;
ghost use Rattle.region_finder.specs.Listings.{IsListingOf};
ghost use Rattle.region_tree.specs.Needs.{AreNeeds};

use crate::ending::leave;
use crate::parking::{Waits, park};
use crate::telling::{tell, untell};
use board_terms::{Operation, Wait};
use dependence_graph::Waiting;
use machine_terms::After;
use plain_values::Sequence;
use region_forest::Forest;
use region_tree::{Needs, OpNumber, RootId};
use std::alloc::{AllocError, Global};

/// An operation waits for a part of a root's field.
pub fn want(
    alloc: Global,
    tree: &Forest,
    graph: &mut Waits,
    operation: &mut Operation,
    op: OpNumber,
    root: RootId,
    field: u8,
    after: &mut After,
) -> Result<(), AllocError>
    requires begun { (knot_at graph.old.knots op.0).stage ≡ Begun }
    requires listing { IsListingOf tree.now graph.old.listing }
    requires needs { AreNeeds tree.now operation.old.frame.needs.items }
    ensures operation { OnOk result (operation.new
        ≡ parked_with operation.old after.old (wait_term.Part root field)) }
    ensures graph { OnOk result (graph.new ≡ parked tree.now graph.old op.0
        (graph_term.Part (record { items = filter (is_on root.0 field) operation.old.frame.needs.items }))) }
    ensures unchanged { OnErr result (operation.new ≡ operation.old) }
    ensures same { OnErr result (graph.new ≡ graph.old) }
    ensures handed { OnErr result (after.new ≡ after.old) }
{
    let text = after.text.as_slice();
    prepare_want(alloc, tree, graph, operation, op, root, field, text)?;
    leave(alloc, operation, after);
    operation.wait = Wait::Part { root, field };
    Ok(())
}

/// Tells the text, and lets an operation wait for a part in the graph.
#[tactic(auto, using(crate::proofs::Waits::some_needs))]
fn prepare_want(
    alloc: Global,
    tree: &Forest,
    graph: &mut Waits,
    operation: &mut Operation,
    op: OpNumber,
    root: RootId,
    field: u8,
    text: &[u8],
) -> Result<(), AllocError>
    requires begun { (knot_at graph.old.knots op.0).stage ≡ Begun }
    requires listing { IsListingOf tree.now graph.old.listing }
    requires needs { AreNeeds tree.now operation.old.frame.needs.items }
    ensures told { OnOk result (operation.new ≡ also_told operation.old text.now) }
    ensures graph { OnOk result (graph.new ≡ parked tree.now graph.old op.0
        (graph_term.Part (record { items = filter (is_on root.0 field) operation.old.frame.needs.items }))) }
    ensures unchanged { OnErr result (operation.new ≡ operation.old) }
    ensures same { OnErr result (graph.new ≡ graph.old) }
{
    let needs = needs_on(alloc, &operation.frame.needs, root, field)?;
    tell(alloc, operation, text)?;
    match park(graph, tree, op, Waiting::Part(needs)) {
        Ok(()) => Ok(()),
        Err(failed) => {
            untell(operation, text);
            Err(failed)
        }
    }
}

/// The needs of a field of a root among these.
fn needs_on(alloc: Global, needs: &Needs, root: RootId, field: u8) -> Result<Needs, AllocError>
    ensures { IfOk result (λ some. some.items ≡ filter (is_on root.0 field) needs.now.items) }
{
    let mut items = Sequence::new(alloc);
    for need in needs.items.as_slice() {
        if need.root.0 == root.0 && need.field == field {
            items.push(*need)?;
        }
    }
    Ok(Needs { items })
}

/// An operation waits for a child, by its place; one that isn't there isn't waited for.
#[tactic(auto, using(crate::proofs::Waits::own_child, crate::proofs::Waits::child_takes_none))]
pub fn await_child(
    alloc: Global,
    tree: &Forest,
    graph: &mut Waits,
    operation: &mut Operation,
    op: OpNumber,
    place: u64,
    after: &mut After,
) -> Result<(), AllocError>
    requires begun { (knot_at graph.old.knots op.0).stage ≡ Begun }
    requires listing { IsListingOf tree.now graph.old.listing }
    requires own { All (IsIssuedBy graph.old.knots op.0) operation.old.children }
    ensures operation { OnOk result (operation.new
        ≡ parked_with operation.old after.old (wait_term.Child place)) }
    ensures graph { OnOk result (graph.new ≡ parked tree.now graph.old op.0
        (waits_for (slice_get operation.old.children place))) }
    ensures unchanged { OnErr result (operation.new ≡ operation.old) }
    ensures same { OnErr result (graph.new ≡ graph.old) }
    ensures handed { OnErr result (after.new ≡ after.old) }
{
    tell(alloc, operation, after.text.as_slice())?;
    let on = waits_for(operation.children.as_slice(), place);
    match park(graph, tree, op, on) {
        Ok(()) => (),
        Err(_) => unreachable!(),
    }
    leave(alloc, operation, after);
    operation.wait = Wait::Child(place);
    Ok(())
}

/// What is waited for in the graph, by a child's place.
fn waits_for(children: &[OpNumber], place: u64) -> Waiting
    ensures { result ≡ waits_for (slice_get children.now place) }
{
    match children.get(place as usize) {
        Some(child) => Waiting::Child(*child),
        None => Waiting::Nothing,
    }
}
