//! Finders of earlier operations.

ghost use Rattle.std.specs.Prelude.{◌≡◌, ◌≤◌, false, IfOk, List, OnErr, OnOk};
ghost use Rattle.region_finder.specs.Listings.{AreRising, IsListingOf, Listed};
ghost use Rattle.region_finder.specs.Listings.{all_uncovered, earlier, has_op, inserted, listed, without};
ghost use Rattle.region_tree.specs.Needs.{AreNeeds};

use crate::paths::{Paths, Probe};
use crate::steps::Steps;
use region_tree::{Needs, OpNumber};
use std::alloc::AllocError;
use std::sync::ledger::Ledger;

/// A listing of operations with their contexts and needs, that tells which of them interfere with others
/// (the dependence analysis of Legion, SC 2012). The tree may grow between calls: what is asked of it is
/// that the nodes of listed needs stand where they stood when these were added.
pub trait Finder {
    /// The operations that were added and have not ended.
    ghost listing: { Self → List Listed };

    /// The listed operations of a context whose needs interfere with these, in rising order. Each test of
    /// two nodes' points is a step.
    fn earlier<L: Ledger, P: Probe<L>>(
        &mut self,
        tree: &P,
        context: OpNumber,
        needs: &Needs,
        steps: &mut Steps<L>,
    ) -> Result<Vec<OpNumber>, AllocError>
        requires listing { IsListingOf (P.Paths.forest tree.now) (listing self.old) }
        requires needs { AreNeeds (P.Paths.forest tree.now) needs.now.items }
        ensures found { IfOk result (λ v. v.items
            ≡ earlier (P.Paths.forest tree.now) (listing self.old) context.0 needs.now.items) }
        ensures rising { IfOk result (λ v. AreRising v.items) }
        ensures listing { listing self.new ≡ listing self.old }
        ensures steps { steps.old ≤ steps.new };

    /// Lists an operation in a context, with its needs. The number of one that has ended may come again.
    fn add<P: Paths>(
        &mut self,
        tree: &P,
        context: OpNumber,
        op: OpNumber,
        needs: &Needs,
    ) -> Result<(), AllocError>
        requires listing { IsListingOf (P.forest tree.now) (listing self.old) }
        requires needs { AreNeeds (P.forest tree.now) needs.now.items }
        requires absent { has_op (listing self.old) op.0 ≡ false }
        ensures added { OnOk result (listing self.new
            ≡ inserted (listed (P.forest tree.now) context op needs.now.items) (listing self.old)) }
        ensures unchanged { OnErr result (listing self.new ≡ listing self.old) };

    /// Takes an operation out of the listing, if it is there.
    fn ended(&mut self, op: OpNumber)
        ensures { listing self.new ≡ without (listing self.old) op.0 };

    /// Takes out of the listing what an operation's needs cover: the needs of smaller operations of its context on
    /// whose field one of these writes at all of their points, as users that a later exclusive one dominates leave
    /// the epoch (Legion, SC 2012). Those operations stay in it, with the needs that are left.
    fn cover<P: Paths>(&mut self, tree: &P, context: OpNumber, op: OpNumber, needs: &Needs)
        requires listing { IsListingOf (P.forest tree.now) (listing self.old) }
        requires needs { AreNeeds (P.forest tree.now) needs.now.items }
        ensures { listing self.new ≡ all_uncovered context.0 op.0 needs.now.items (listing self.old) };
}
