//! How an operation that has begun waits.

ghost use Rattle.std.specs.Prelude.{◌≡◌, ◌<◌, IfOk, IsOk, cond, length, set};
ghost use Rattle.region_finder.specs.Listings.{IsListingOf};
ghost use Rattle.dependence_graph.specs.Awaited.{awaited_ops};
ghost use Rattle.dependence_graph.specs.Graphs.{knot_on, waited};
ghost use Rattle.dependence_graph.specs.Issues.{IsPartOf, TakesNone};
ghost use Rattle.dependence_graph.specs.Knots.{knot_at, some_failed};
ghost use Rattle.dependence_graph.specs.Links.{restarted};

use crate::awaited::Awaited;
use crate::issuing::awaited;
use crate::knot::Knot;
use crate::knots::some_failed;
use crate::link::Link;
use crate::stage::{Stage, Waiting};
use plain_values::Sequence;
use region_finder::{Finder, Probe, Steps};
use region_tree::OpNumber;
use std::alloc::{AllocError, Global};
use std::sync::ledger::Ledger;

/// The operations that one waits for.
pub fn waited_for<F: Finder, L: Ledger, P: Probe<L>>(
    finder: &mut F,
    alloc: Global,
    tree: &P,
    op: OpNumber,
    on: Waiting,
    steps: &mut Steps<L>,
) -> Result<Awaited, AllocError>
    requires listing { IsListingOf (P.Paths.forest tree.now) (F.listing finder.old) }
    requires on { IsPartOf (P.Paths.forest tree.now) on }
    ensures found { IfOk result (λ v. awaited_ops v
        ≡ waited (P.Paths.forest tree.now) (F.listing finder.old) op.0 on) }
    ensures listing { F.listing finder.new ≡ F.listing finder.old }
    ensures sure { TakesNone on → IsOk result }
{
    match on {
        Waiting::Nothing => Ok(Awaited::Many(Sequence::new(alloc))),
        Waiting::Part(needs) => awaited(finder, tree, op, &needs, steps),
        Waiting::Child(child) => Ok(Awaited::One([child])),
    }
}

/// The stage of an operation that begins to wait for others.
fn parked_stage(knots: &[Knot], on: &Awaited) -> Stage
    ensures { result ≡ cond (some_failed knots.now (awaited_ops on.now)) Stage.Stopped Stage.Parked }
{
    if some_failed(knots, on.as_slice()) {
        Stage::Stopped
    } else {
        Stage::Parked
    }
}

/// Lets an operation wait for others.
pub fn wait(knots: &mut Vec<Knot>, place: usize, on: Awaited)
    requires { place < length knots.old.items }
    ensures { knots.new.items ≡ set knots.old.items place
        (knot_on knots.old.items (knot_at knots.old.items place).parent (awaited_ops on) Stage.Parked Stage.Stopped) }
{
    let stage = parked_stage(knots, &on);
    let knot = &mut knots[place];
    knot.wait(on, stage);
}

/// Nothing is seen yet of what an operation waits for.
pub fn restart(links: &mut Vec<Link>, place: usize)
    requires { place < length links.old.items }
    ensures { links.new.items ≡ restarted links.old.items place }
{
    let link = &mut links[place];
    link.passed = 0;
}
