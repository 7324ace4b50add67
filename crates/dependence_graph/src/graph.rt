//! The graph.

ghost use Rattle.std.specs.Prelude.{◌≡◌, ◌<◌, ◌≤◌, ◌↔◌, All, IfNone, IfOk, IfSome, IsNone, IsOk, OnErr, OnOk, [], false, length, set, true, ℕ};
ghost use Rattle.region_finder.specs.Listings.{IsListingOf};
ghost use Rattle.dependence_graph.specs.Graphs.{begun, ended, issued, new_graph, parked};
ghost use Rattle.dependence_graph.specs.Issues.{AreAllNeeds, IsFirstReady, IsOwn, IsPartOf, TakesNone};
ghost use Rattle.dependence_graph.specs.Knots.{all_in_progress, is_in_progress, is_ready, knot_at, stage_at};

use crate::awaited::Awaited;
use crate::failing::fail;
use crate::finishing::finish;
use crate::issuing::issue_all;
use crate::knot::Knot;
use crate::knots::{enter, in_progress, stage_of};
use crate::link::Link;
use crate::linking::{refresh, refresh_from};
use crate::parking::{restart, wait, waited_for};
use crate::stage::{How, Issued, Stage, Waiting};
use least_set::LeastSet;
use plain_values::Sequence;
use region_finder::{Finder, Probe, Steps};
use region_tree::{Needs, OpNumber};
use std::alloc::{AllocError, Global};
use std::marker::Model;
use std::sync::ledger::Ledger;

/// What waits for what among the operations of a board (the dependence analysis of Legion, SC 2012).
/// Operation 0 is main, which has begun; the others are numbered in order of issue.
#[derive(Drop)]
pub struct Graph<F: Finder + Drop> {
    finder: F,
    knots: Vec<Knot>,
    links: Vec<Link>,
    ready: LeastSet,
}

impl<F: Finder + Drop> Model for Graph<F> {
    ghost use Rattle.dependence_graph.specs.Graphs.{Waits};
    ghost use Rattle.dependence_graph.specs.Links.{IsKept};

    ghost Value = { Waits };

    ghost view = { λ g. record { knots = g.knots.items; listing = F.listing g.finder } };

    ghost invariant = { λ g. IsKept g.knots.items g.links.items g.ready (F.listing g.finder) };
}

impl<F: Finder + Drop> Graph<F> {
    /// The graph of main alone, over a finder that lists nothing.
    pub fn new(alloc: Global, finder: F) -> Result<Graph<F>, AllocError>
        requires empty { F.listing finder ≡ [] }
        ensures { IfOk result (λ g. g ≡ new_graph) }
    {
        let mut knots = Vec::new(alloc);
        let mut links = Vec::new(alloc);
        let mut ready = LeastSet::new(alloc);
        knots.push(Knot::new(
            OpNumber(0),
            Awaited::Many(Sequence::new(alloc)),
            Stage::Begun,
        ))?;
        links.push(Link {
            waiters: Sequence::new(alloc),
            passed: 0,
        })?;
        ready.make_room(1)?;
        Ok(Graph {
            finder,
            knots,
            links,
            ready,
        })
    }

    /// Issues children of an operation in progress. Each waits for the earlier ones that have not ended and
    /// that it interferes with; where one of them has failed or was dropped it is dropped at once. What it covers
    /// of earlier ones is listed no more: whoever interferes with that interferes with it, and waits for it alone.
    pub fn issue<L: Ledger, P: Probe<L>>(
        &mut self,
        tree: &P,
        parent: OpNumber,
        needs: Vec<Needs>,
        steps: &mut Steps<L>,
    ) -> Result<Issued, AllocError>
        requires parent { is_in_progress (knot_at self.old.knots parent.0).stage ≡ true }
        requires listing { IsListingOf (P.Paths.forest tree.now) self.old.listing }
        requires needs { AreAllNeeds (P.Paths.forest tree.now) needs.items }
        ensures issued { OnOk result (self.new ≡ issued (P.Paths.forest tree.now) self.old parent needs.items) }
        ensures first { IfOk result (λ i. i.first.0 ≡ length self.old.knots) }
        ensures count { IfOk result (λ i. i.count ≡ length needs.items) }
        ensures unchanged { OnErr result (self.new ≡ self.old) }
    {
        let first = self.knots.len();
        self.ready.make_room(first + needs.len())?;
        issue_all(
            &mut self.finder,
            &mut self.knots,
            &mut self.links,
            tree,
            parent,
            needs.as_slice(),
            steps,
        )?;
        refresh_from(&self.knots, &mut self.links, &mut self.ready, first);
        Ok(Issued {
            first: OpNumber(first as u64),
            count: needs.len() as u64,
        })
    }

    /// Where an operation stands: none of a number that was never issued.
    pub fn stage(&self, op: OpNumber) -> Option<Stage>
        ensures value { result ≡ stage_at self.now.knots op.0 }
        ensures none { (result ≡ None) ↔ (length self.now.knots ≤ op.0) }
    {
        stage_of(&self.knots, op)
    }

    /// Whether an operation waits, and all that it waits for has ended.
    pub fn ready(&self, op: OpNumber) -> bool
        ensures { result ≡ is_ready self.now.knots op.0 }
    {
        self.ready.has(op.0 as usize)
    }

    /// The least operation that is ready.
    pub fn first_ready(&self) -> Option<OpNumber>
        ensures some { IfSome result (λ o. IsFirstReady self.now.knots o.0) }
        ensures none { (result ≡ None) ↔ ((k : ℕ) → is_ready self.now.knots k ≡ false) }
    {
        match self.ready.first() {
            Some(place) => Some(OpNumber(place as u64)),
            None => None,
        }
    }

    /// Begins an operation that is ready, or goes on with it.
    pub fn begin(&mut self, op: OpNumber)
        requires { is_ready self.old.knots op.0 ≡ true }
        ensures { self.new ≡ begun self.old op.0 }
    {
        let place = op.0 as usize;
        self.ready.remove(place);
        enter(&mut self.knots, place, Stage::Begun);
    }

    /// Lets an operation that has begun wait. Where one that it waits for has failed or was dropped it is
    /// stopped at once. To wait for nothing or for a child takes no memory.
    pub fn park<L: Ledger, P: Probe<L>>(
        &mut self,
        tree: &P,
        op: OpNumber,
        on: Waiting,
        steps: &mut Steps<L>,
    ) -> Result<(), AllocError>
        requires begun { (knot_at self.old.knots op.0).stage ≡ Stage.Begun }
        requires listing { IsListingOf (P.Paths.forest tree.now) self.old.listing }
        requires part { IsPartOf (P.Paths.forest tree.now) on }
        requires own { IsOwn self.old.knots op.0 on }
        ensures parked { OnOk result (self.new ≡ parked (P.Paths.forest tree.now) self.old op.0 on) }
        ensures unchanged { OnErr result (self.new ≡ self.old) }
        ensures sure { TakesNone on → IsOk result }
    {
        let place = op.0 as usize;
        let alloc = *self.knots.allocator();
        let on = waited_for(&mut self.finder, alloc, tree, op, on, steps)?;
        wait(&mut self.knots, place, on);
        restart(&mut self.links, place);
        refresh(&self.knots, &mut self.links, &mut self.ready, place);
        Ok(())
    }

    /// Ends an operation in progress. After one that failed those that wait for it give up: a Waiting one is
    /// dropped and a Parked one stopped, and so on from there.
    pub fn end(&mut self, op: OpNumber, how: How)
        requires progress { is_in_progress (knot_at self.old.knots op.0).stage ≡ true }
        requires stopped { (knot_at self.old.knots op.0).stage ≡ Stage.Stopped → how ≡ How.Failed }
        ensures { self.new ≡ ended self.old op.0 how }
    {
        match how {
            How::Done => finish(
                &mut self.finder,
                &mut self.knots,
                &mut self.links,
                &mut self.ready,
                op,
            ),
            How::Failed => {
                let place = op.0 as usize;
                self.ready.remove(place);
                fail(&mut self.knots, place);
            }
        }
    }

    /// All operations that have begun and haven't finished, in rising order.
    pub fn in_progress(&self) -> Result<Vec<OpNumber>, AllocError>
        ensures { IfOk result (λ v. v.items ≡ all_in_progress self.now.knots) }
    {
        in_progress(*self.knots.allocator(), &self.knots)
    }
}
