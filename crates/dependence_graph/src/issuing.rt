//! How operations are issued, and taken back where memory is missing.

ghost use Rattle.std.specs.Prelude.{◌≡◌, ◌<◌, ◌≤◌, ◌+◌, ◌^◌, All, IfOk, IsOk, List, OnErr, OnOk, [], ◌∷◌, ◌++◌, filter, length, take, vec_capacity, vec_len};
ghost use Rattle.dependence_graph.specs.Entries.{Knot};
ghost use Rattle.region_finder.specs.Listings.{IsListingOf, earlier};
ghost use Rattle.region_tree.specs.Needs.{AreNeeds};
ghost use Rattle.dependence_graph.specs.Awaited.{awaited_ops};
ghost use Rattle.dependence_graph.specs.Graphs.{covered_each, issued, issued_each, issued_one, knot_on};
ghost use Rattle.dependence_graph.specs.Issues.{AreAllNeeds, is_below, state};
ghost use Rattle.dependence_graph.specs.Links.{AreGrown, IsIssued, IsLinked, no_link};

use crate::awaited::Awaited;
use crate::knot::Knot;
use crate::knots::some_failed;
use crate::link::Link;
use crate::linking::link;
use crate::stage::Stage;
use plain_values::Sequence;
use region_finder::{Finder, Paths, Probe, Steps};
use region_tree::{Needs, OpNumber};
use std::alloc::AllocError;
use std::sync::ledger::Ledger;

/// The operations of a context that have not ended and whose needs interfere with these.
pub fn awaited<F: Finder, L: Ledger, P: Probe<L>>(
    finder: &mut F,
    tree: &P,
    context: OpNumber,
    needs: &Needs,
    steps: &mut Steps<L>,
) -> Result<Awaited, AllocError>
    requires listing { IsListingOf (P.Paths.forest tree.now) (F.listing finder.old) }
    requires needs { AreNeeds (P.Paths.forest tree.now) needs.now.items }
    ensures found { IfOk result (λ v. awaited_ops v
        ≡ earlier (P.Paths.forest tree.now) (F.listing finder.old) context.0 needs.now.items) }
    ensures listing { F.listing finder.new ≡ F.listing finder.old }
{
    let found = finder.earlier(tree, context, needs, steps)?;
    Ok(Awaited::Many(Sequence::from_vec(found)))
}

/// Makes room for one more operation.
fn make_room(knots: &mut Vec<Knot>, links: &mut Vec<Link>) -> Result<(), AllocError>
    ensures knots { knots.new.items ≡ knots.old.items }
    ensures links { links.new.items ≡ links.old.items }
    ensures knot_room { OnOk result (vec_len knots.new < vec_capacity knots.new) }
    ensures link_room { OnOk result (vec_len links.new < vec_capacity links.new) }
{
    knots.reserve(1)?;
    links.reserve(1)?;
    Ok(())
}

/// An operation that waits for others, or is dropped where one of them has failed.
fn new_knot(knots: &[Knot], parent: OpNumber, on: Awaited) -> Knot
    ensures { result ≡ knot_on knots.now parent (awaited_ops on) Stage.Waiting Stage.Dropped }
{
    let stage = if some_failed(knots, on.as_slice()) {
        Stage::Dropped
    } else {
        Stage::Waiting
    };
    Knot::new(parent, on, stage)
}

/// Adds an operation for which there is room.
fn push_knot(knots: &mut Vec<Knot>, links: &mut Vec<Link>, parent: OpNumber, on: Awaited)
    requires knot_room { vec_len knots.old < vec_capacity knots.old }
    requires link_room { vec_len links.old < vec_capacity links.old }
    ensures knots { knots.new.items ≡ knots.old.items
        ++ knot_on knots.old.items parent (awaited_ops on) Stage.Waiting Stage.Dropped ∷ [] }
    ensures links { links.new.items ≡ links.old.items ++ no_link ∷ [] }
{
    links.push_reserved(Link {
        waiters: Sequence::new(*knots.allocator()),
        passed: 0,
    });
    let knot = new_knot(knots, parent, on);
    knots.push_reserved(knot);
}

/// Issues one operation.
fn issue_one<F: Finder, L: Ledger, P: Probe<L>>(
    finder: &mut F,
    knots: &mut Vec<Knot>,
    links: &mut Vec<Link>,
    tree: &P,
    parent: OpNumber,
    needs: &Needs,
    steps: &mut Steps<L>,
) -> Result<(), AllocError>
    requires listing { IsListingOf (P.Paths.forest tree.now) (F.listing finder.old) }
    requires needs { AreNeeds (P.Paths.forest tree.now) needs.now.items }
    requires listed { All (IsIssued knots.old.items) (F.listing finder.old) }
    requires linked { IsLinked knots.old.items links.old.items }
    ensures issued { OnOk result (state knots.new.items (F.listing finder.new)
        ≡ issued_one (P.Paths.forest tree.now) (state knots.old.items (F.listing finder.old)) parent needs.now.items) }
    ensures unchanged { OnErr result (state knots.new.items (F.listing finder.new)
        ≡ state knots.old.items (F.listing finder.old)) }
    ensures linked { IsLinked knots.new.items links.new.items }
    ensures grown { AreGrown links.old.items (take (length links.old.items) links.new.items) }
{
    let op = OpNumber(knots.len() as u64);
    let on = awaited(finder, tree, parent, needs, steps)?;
    link(links, on.as_slice(), knots.len())?;
    make_room(knots, links)?;
    finder.add(tree, parent, op, needs)?;
    push_knot(knots, links, parent, on);
    Ok(())
}

/// Takes the operations from a number on out of the listing.
fn unlist<F: Finder>(finder: &mut F, first: usize, size: usize)
    requires first { first ≤ size }
    requires listed { All (λ l. l.op.0 < size) (F.listing finder.old) }
    ensures { F.listing finder.new ≡ filter (is_below first) (F.listing finder.old) }
{
    for place in first..size {
        finder.ended(OpNumber(place as u64));
    }
}

/// Issues operations one after the other. Where memory is missing none is issued.
fn issue_each<F: Finder, L: Ledger, P: Probe<L>>(
    finder: &mut F,
    knots: &mut Vec<Knot>,
    links: &mut Vec<Link>,
    tree: &P,
    parent: OpNumber,
    needs: &[Needs],
    steps: &mut Steps<L>,
) -> Result<(), AllocError>
    requires listing { IsListingOf (P.Paths.forest tree.now) (F.listing finder.old) }
    requires needs { AreAllNeeds (P.Paths.forest tree.now) needs.now }
    requires listed { All (IsIssued knots.old.items) (F.listing finder.old) }
    requires linked { IsLinked knots.old.items links.old.items }
    ensures issued { OnOk result (state knots.new.items (F.listing finder.new)
        ≡ issued_each (P.Paths.forest tree.now) (state knots.old.items (F.listing finder.old)) parent needs.now) }
    ensures unchanged { OnErr result (state knots.new.items (F.listing finder.new)
        ≡ state knots.old.items (F.listing finder.old)) }
    ensures linked { IsLinked knots.new.items links.new.items }
    ensures listed { All (IsIssued knots.new.items) (F.listing finder.new) }
    ensures placed { IsListingOf (P.Paths.forest tree.now) (F.listing finder.new) }
{
    let first = knots.len();
    for one in needs {
        match issue_one(finder, knots, links, tree, parent, one, steps) {
            Ok(()) => {}
            Err(failed) => {
                unlist(finder, first, knots.len());
                knots.truncate(first);
                links.truncate(first);
                return Err(failed);
            }
        }
    }
    Ok(())
}

/// What operations that were issued from a number on cover of earlier ones is listed no more.
fn cover_all<F: Finder, P: Paths>(
    finder: &mut F,
    tree: &P,
    parent: OpNumber,
    first: usize,
    needs: &[Needs],
)
    requires listing { IsListingOf (P.forest tree.now) (F.listing finder.old) }
    requires needs { AreAllNeeds (P.forest tree.now) needs.now }
    requires numbers { first + length needs.now < 2 ^ 64 }
    ensures { (ks : List Knot) → state ks (F.listing finder.new)
        ≡ covered_each parent.0 needs.now (state ks (F.listing finder.old)) first }
{
    for place in 0..needs.len() {
        finder.cover(
            tree,
            parent,
            OpNumber((first + place) as u64),
            &needs[place],
        );
    }
}

/// Issues operations, and then takes out of the listing what they cover, which needs no memory. Where memory is
/// missing none is issued.
pub fn issue_all<F: Finder, L: Ledger, P: Probe<L>>(
    finder: &mut F,
    knots: &mut Vec<Knot>,
    links: &mut Vec<Link>,
    tree: &P,
    parent: OpNumber,
    needs: &[Needs],
    steps: &mut Steps<L>,
) -> Result<(), AllocError>
    requires listing { IsListingOf (P.Paths.forest tree.now) (F.listing finder.old) }
    requires needs { AreAllNeeds (P.Paths.forest tree.now) needs.now }
    requires listed { All (IsIssued knots.old.items) (F.listing finder.old) }
    requires linked { IsLinked knots.old.items links.old.items }
    ensures issued { OnOk result (state knots.new.items (F.listing finder.new)
        ≡ issued (P.Paths.forest tree.now) (state knots.old.items (F.listing finder.old)) parent needs.now) }
    ensures unchanged { OnErr result (state knots.new.items (F.listing finder.new)
        ≡ state knots.old.items (F.listing finder.old)) }
    ensures linked { IsLinked knots.new.items links.new.items }
    ensures listed { All (IsIssued knots.new.items) (F.listing finder.new) }
{
    let first = knots.len();
    issue_each(finder, knots, links, tree, parent, needs, steps)?;
    cover_all(finder, tree, parent, first, needs);
    Ok(())
}
