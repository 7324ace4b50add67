//! Users of regions: the needs of listed operations.

ghost use Rattle.std.specs.Prelude.{◌≡◌, ◌≤◌, ◌+◌, ◌==◌, ◌&&◌, IfOk, nat_lt};
ghost use Rattle.region_tree.specs.Needs.{IsNeed, requirement_of};
ghost use Rattle.region_tree.specs.Requirements.{conflict};
ghost use Rattle.region_finder.specs.Forests.{IsForest};
ghost use Rattle.region_finder.specs.Listings.{covers, is_covered, placed};
ghost use Rattle.region_walk.specs.Covering.{is_dominated};
ghost use Rattle.region_walk.specs.Near.{are_near, is_near};
ghost use Rattle.region_walk.specs.Ranges.{is_under};
ghost use Rattle.region_walk.specs.Sides.{is_beside, is_less, is_of, key, least_key, way_down};
ghost use Rattle.region_walk.specs.Users.{IsUser, is_of_another, listed_need};

use crate::conflicts::conflict;
use crate::covers::covers;
use crate::placed::way_down;
use crate::ways::{are_less, begins, leaves};
use region_finder::{Paths, Probe, Steps};
use region_tree::{Need, Node, OpNumber};
use smallvec::SmallVec;
use std::alloc::{AllocError, Global};
use std::marker::Model;
use std::sync::ledger::Ledger;

/// A need with the operation that has it, that one's context, and the way from the root's region down to the
/// need's node. Most ways are short, and stay inline.
#[derive(Drop)]
pub struct User {
    context: OpNumber,
    op: OpNumber,
    need: Need,
    way: SmallVec<(Node, u32), 4>,
}

impl Model for User {
    ghost use Rattle.std.specs.Prelude.{reverse};
    ghost use Rattle.region_walk.specs.Users.{ListedNeed};

    ghost Value = { ListedNeed };

    ghost view = { λ u. record {
      context = u.context;
      op = u.op;
      placed = record { need = u.need; way = reverse u.way.items };
    } };
}

impl User {
    #[tactic(auto, using(crate::proofs::Turning::turned_back))]
    pub fn new<P: Paths>(
        alloc: Global,
        tree: &P,
        context: OpNumber,
        op: OpNumber,
        need: &Need,
    ) -> Result<User, AllocError>
        requires { IsNeed (P.forest tree.now) need.now }
        ensures user { IfOk result (λ u. u ≡ listed_need context op (placed (P.forest tree.now) need.now)) }
        ensures forest { IfOk result (λ _. IsForest (P.forest tree.now)) }
    {
        let way = way_down(alloc, tree, need.node)?;
        Ok(User {
            context,
            op,
            need: *need,
            way,
        })
    }

    pub fn op(&self) -> OpNumber
        ensures { result ≡ self.now.op }
    {
        self.op
    }

    /// The way from the root's region down to the node.
    #[tactic(auto, using(crate::proofs::Turning::turned_back))]
    fn way(&self) -> &[(Node, u32)]
        ensures { result.now ≡ way_down self.now }
    {
        self.way.as_slice()
    }

    /// Whether this is a need of another operation.
    pub fn is_of_another(&self, op: OpNumber) -> bool
        ensures { result ≡ is_of_another op.0 self.now }
    {
        self.op.0 != op.0
    }

    /// Whether the user is of a context and has the root and field of a need.
    pub fn is_of(&self, context: OpNumber, need: &Need) -> bool
        ensures { result ≡ is_of context.0 need.now self.now }
    {
        self.context.0 == context.0
            && need.root.0 == self.need.root.0
            && need.field == self.need.field
    }

    /// Whether the user is of a context, has the root and field of a need, and isn't separated from it.
    pub fn is_near<P: Paths>(&self, tree: &P, context: OpNumber, need: &Need) -> bool
        requires placed { IsUser (P.forest tree.now) self.now }
        requires need { IsNeed (P.forest tree.now) need.now }
        ensures { result ≡ is_near (P.forest tree.now) context.0 need.now self.now }
    {
        self.is_of(context, need) && !tree.separated(need.node, self.need.node)
    }

    /// Whether the need conflicts with another one.
    pub fn conflicts<L: Ledger, P: Probe<L>>(
        &self,
        tree: &P,
        need: &Need,
        steps: &mut Steps<L>,
    ) -> bool
        requires placed { IsUser (P.Paths.forest tree.now) self.now }
        requires need { IsNeed (P.Paths.forest tree.now) need.now }
        ensures value { result ≡ conflict (requirement_of (P.Paths.forest tree.now) need.now)
            (requirement_of (P.Paths.forest tree.now) self.now.placed.need) }
        ensures steps { steps.old ≤ steps.new }
        ensures bound { steps.new ≤ steps.old + 1 }
    {
        conflict(tree, need, &self.need, steps)
    }

    /// Whether the user comes before all of a context with the root and field of a need.
    pub fn is_below(&self, context: OpNumber, need: &Need) -> bool
        ensures { result ≡ is_less (key self.now) (least_key context.0 need.now) }
    {
        self.context.0 < context.0
            || self.context.0 == context.0
                && (self.need.root.0 < need.root.0
                    || self.need.root.0 == need.root.0 && self.need.field < need.field)
    }

    /// Whether the user comes before another one: by context, root and field, and then by the ways.
    pub fn is_before(&self, other: &User) -> bool
        ensures { result ≡ is_less (key self.now) (key other.now) }
    {
        if self.context.0 != other.context.0 {
            return self.context.0 < other.context.0;
        }
        if self.need.root.0 != other.need.root.0 {
            return self.need.root.0 < other.need.root.0;
        }
        if self.need.field != other.need.field {
            return self.need.field < other.need.field;
        }
        are_less(self.way(), other.way())
    }

    /// Whether the user has the context, root and field of another one, and its way goes on from that one's.
    pub fn is_under(&self, top: &User) -> bool
        ensures { result ≡ is_under top.now self.now }
    {
        top.context.0 == self.context.0
            && top.need.root.0 == self.need.root.0
            && top.need.field == self.need.field
            && begins(top.way(), self.way())
    }

    /// How many steps the user's way shares with another one, and whether it then goes to a lesser colour.
    pub fn parts_from(&self, way: &[(Node, u32)]) -> (usize, bool) {
        let own = self.way();
        let shorter = own.len().min(way.len());
        let mut steps = 0;
        while steps < shorter && own[steps].0.0 == way[steps].0.0 && own[steps].1 == way[steps].1 {
            steps += 1;
        }
        (steps, steps < shorter && own[steps].1 < way[steps].1)
    }

    /// Whether the user is of a context, has the root and field of a need, and its way leaves another one so.
    pub fn is_beside(
        &self,
        context: OpNumber,
        need: &Need,
        way: &[(Node, u32)],
        parts: (usize, bool),
    ) -> bool
        ensures { result ≡ is_beside context.0 need.now way.now parts.0 parts.1 self.now }
    {
        self.is_of(context, need) && leaves(way, self.way(), parts.0, parts.1)
    }

    /// Whether a need writes the user's field at all of its points.
    fn is_covered_by(&self, by: &Need) -> bool
        ensures { result ≡ covers self.now.placed by.now }
    {
        covers(by, &self.need, self.way())
    }

    /// Whether one of these needs does.
    fn is_covered(&self, needs: &[Need]) -> bool
        ensures { result ≡ is_covered needs.now self.now.placed }
    {
        needs.iter().any(|by| self.is_covered_by(by))
    }

    /// Whether the operation is of a context, and has a smaller number than another one.
    fn is_earlier(&self, context: OpNumber, op: OpNumber) -> bool
        ensures { result ≡ ((self.now.context.0 == context.0) && nat_lt self.now.op.0 op.0) }
    {
        self.context.0 == context.0 && self.op.0 < op.0
    }

    /// Whether the user is of a smaller operation of a context, and one of these needs covers it.
    pub fn is_dominated(&self, context: OpNumber, op: OpNumber, needs: &[Need]) -> bool
        ensures { result ≡ is_dominated context.0 op.0 needs.now self.now }
    {
        self.is_earlier(context, op) && self.is_covered(needs)
    }
}
