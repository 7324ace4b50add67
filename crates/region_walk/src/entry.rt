//! Operations that a finder lists.

ghost use Rattle.std.specs.Prelude.{◌≡◌, ◌≤◌, ◌==◌, ◌&&◌, IfOk, filter, nat_lt, not};
ghost use Rattle.region_tree.specs.Needs.{AreNeeds};
ghost use Rattle.region_finder.specs.Listings.{ArePlaced, interferes_in, is_covered, listed, uncovered};

use crate::conflicts::any_conflict;
use crate::placed::{Placed, place_all};
use plain_values::Sequence;
use region_finder::{Paths, Probe, Steps};
use region_tree::{Need, OpNumber};
use std::alloc::{AllocError, Global};
use std::marker::Model;
use std::sync::ledger::Ledger;

/// An operation with its context, the needs with which it was added, and those of them that no later one covers. The
/// former are read by none: they stay for what is told of operations in progress.
#[derive(Drop)]
pub struct Entry {
    op: OpNumber,
    context: OpNumber,
    issued: Sequence<Need>,
    needs: Vec<Placed>,
}

impl Model for Entry {
    ghost use Rattle.region_finder.specs.Listings.{Listed};

    ghost Value = { Listed };

    ghost view = { λ e. record {
      op = e.op;
      context = e.context;
      issued = e.issued;
      needs = e.needs.items;
    } };
}

impl Entry {
    pub fn new<P: Paths>(
        alloc: Global,
        tree: &P,
        context: OpNumber,
        op: OpNumber,
        needs: &[Need],
    ) -> Result<Entry, AllocError>
        requires { AreNeeds (P.forest tree.now) needs.now }
        ensures { IfOk result (λ e. e ≡ listed (P.forest tree.now) context op needs.now) }
    {
        let issued = Sequence::from_slice(alloc, needs)?;
        let needs = place_all(alloc, tree, needs)?;
        Ok(Entry {
            op,
            context,
            issued,
            needs,
        })
    }

    pub fn op(&self) -> OpNumber
        ensures { result ≡ self.now.op }
    {
        self.op
    }

    /// Whether the operation is of a context, and its needs interfere with these.
    pub fn interferes<L: Ledger, P: Probe<L>>(
        &self,
        tree: &P,
        context: OpNumber,
        needs: &[Need],
        steps: &mut Steps<L>,
    ) -> bool
        requires placed { ArePlaced (P.Paths.forest tree.now) self.now }
        requires needs { AreNeeds (P.Paths.forest tree.now) needs.now }
        ensures value { result
            ≡ interferes_in (P.Paths.forest tree.now) context.0 needs.now self.now }
        ensures steps { steps.old ≤ steps.new }
    {
        self.context.0 == context.0 && any_conflict(tree, needs, &self.needs, steps)
    }

    /// Whether the operation is of a context, and has a smaller number than another one.
    fn is_earlier(&self, context: OpNumber, op: OpNumber) -> bool
        ensures { result ≡ ((self.now.context.0 == context.0) && nat_lt self.now.op.0 op.0) }
    {
        self.context.0 == context.0 && self.op.0 < op.0
    }

    /// Takes out what these needs of an operation cover.
    pub fn uncover(&mut self, context: OpNumber, op: OpNumber, needs: &[Need])
        ensures { self.new ≡ uncovered context.0 op.0 needs.now self.old }
    {
        if self.is_earlier(context, op) {
            drop_covered(&mut self.needs, needs);
        }
    }
}

/// Leaves those that these needs don't cover.
fn drop_covered(needs: &mut Vec<Placed>, by: &[Need])
    ensures { needs.new.items ≡ filter (λ m. not (is_covered by.now m)) needs.old.items }
{
    needs.retain(|need| !need.is_covered(by));
}
