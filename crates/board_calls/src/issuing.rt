//! Children that are issued.

ghost use Rattle.std.specs.Prelude.{◌≡◌, ◌<◌, ◌++◌, All, IfOk, OnErr, OnOk, take};
ghost use Rattle.board_calls.specs.Calls.{HasNeedsOf, numbers_from};
ghost use Rattle.board_terms.specs.Calls.{needs_of};
ghost use Rattle.dependence_graph.specs.Graphs.{issued};
ghost use Rattle.dependence_graph.specs.Issues.{AreAllNeeds};
ghost use Rattle.dependence_graph.specs.Knots.{knot_at};
ghost use Rattle.dependence_graph.specs.declared.stage.Stage.TheVariants.{Begun};
ghost use Rattle.region_finder.specs.Listings.{IsListingOf};

use board_gives::Waits;
use board_terms::Operation;
use machine_terms::Frame;
use plain_values::Sequence;
use region_finder::Steps;
use region_forest::Forest;
use region_tree::{Needs, OpNumber};
use std::alloc::{AllocError, Global};
use std::marker::Brand;
use std::mem;
use std::sync::ledger::{Blank, Ledger};

/// An operation that has begun has these children more, which begin in these frames: it knows their numbers, and they
/// are issued in order.
pub fn issue_children(
    alloc: Global,
    tree: &Forest,
    graph: &mut Waits,
    operation: &mut Operation,
    op: OpNumber,
    numbers: &[OpNumber],
    frames: &[Frame],
) -> Result<(), AllocError>
    requires begun { (knot_at graph.old.knots op.0).stage ≡ Begun }
    requires listing { IsListingOf tree.now graph.old.listing }
    requires needs { All (HasNeedsOf tree.now) frames.now }
    ensures operation { OnOk result (operation.new
        ≡ record operation.old { children = operation.old.children ++ numbers.now }) }
    ensures graph { OnOk result (graph.new ≡ issued tree.now graph.old op (needs_of frames.now)) }
    ensures begun { OnOk result ((knot_at graph.new.knots op.0).stage ≡ Begun) }
    ensures listing { OnOk result (IsListingOf tree.now graph.new.listing) }
    ensures unchanged { OnErr result (operation.new ≡ operation.old) }
    ensures same { OnErr result (graph.new ≡ graph.old) }
{
    let count = operation.children.len();
    operation.children.extend(numbers)?;
    match issue(alloc, tree, graph, op, frames) {
        Ok(()) => Ok(()),
        Err(failed) => {
            keep_children(alloc, operation, count);
            Err(failed)
        }
    }
}

/// The first so many children are kept.
fn keep_children(alloc: Global, operation: &mut Operation, count: usize)
    ensures { operation.new ≡ record operation.old { children = take count operation.old.children } }
{
    let mut children = mem::replace(&mut operation.children, Sequence::new(alloc)).into_vec();
    children.truncate(count);
    operation.children = Sequence::from_vec(children);
}

#[tactic(auto, using(crate::proofs::Issues::begun_issued))]
fn issue(
    alloc: Global,
    tree: &Forest,
    graph: &mut Waits,
    op: OpNumber,
    frames: &[Frame],
) -> Result<(), AllocError>
    requires begun { (knot_at graph.old.knots op.0).stage ≡ Begun }
    requires listing { IsListingOf tree.now graph.old.listing }
    requires needs { All (HasNeedsOf tree.now) frames.now }
    ensures issued { OnOk result (graph.new ≡ issued tree.now graph.old op (needs_of frames.now)) }
    ensures begun { OnOk result ((knot_at graph.new.knots op.0).stage ≡ Begun) }
    ensures listing { OnOk result (IsListingOf tree.now graph.new.listing) }
    ensures unchanged { OnErr result (graph.new ≡ graph.old) }
{
    let needs = copy_needs(alloc, frames)?;
    issue_by::<Brand>(Blank::new(1), tree, graph, op, needs)
}

fn issue_by<L: Ledger>(
    blank: Blank,
    tree: &Forest,
    graph: &mut Waits,
    op: OpNumber,
    needs: Vec<Needs>,
) -> Result<(), AllocError>
    requires name { blank.name ≡ L.name }
    requires parts { blank.parts ≡ L.parts }
    requires some { 0 < L.parts }
    requires begun { (knot_at graph.old.knots op.0).stage ≡ Begun }
    requires listing { IsListingOf tree.now graph.old.listing }
    requires needs { AreAllNeeds tree.now needs.items }
    ensures issued { OnOk result (graph.new ≡ issued tree.now graph.old op needs.items) }
    ensures unchanged { OnErr result (graph.new ≡ graph.old) }
{
    let mut steps = Steps::<L>::new(blank);
    graph.issue(tree, op, needs, &mut steps)?;
    Ok(())
}

/// A copy of what each frame needs.
fn copy_needs(alloc: Global, frames: &[Frame]) -> Result<Vec<Needs>, AllocError>
    ensures { IfOk result (λ ns. ns.items ≡ needs_of frames.now) }
{
    let mut needs = Vec::new(alloc);
    for frame in frames {
        let items = frame.needs.items.copy()?;
        needs.push(Needs { items })?;
    }
    Ok(needs)
}

/// So many numbers of operations from the first one on. What no number counts counts as a want of memory.
#[tactic(auto, using(crate::proofs::Issues::numbers_more))]
pub fn numbers_from(alloc: Global, first: u64, count: usize) -> Result<Vec<OpNumber>, AllocError>
    ensures { IfOk result (λ ns. ns.items ≡ numbers_from first count) }
{
    let mut numbers = Vec::new(alloc);
    for place in 0..count {
        let Some(number) = first.checked_add(place as u64) else {
            return Err(AllocError);
        };
        numbers.push(OpNumber(number))?;
    }
    Ok(numbers)
}
