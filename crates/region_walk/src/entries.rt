//! Entries of operations that were listed, of which some have ended.

ghost use Rattle.std.specs.Prelude.{◌≡◌, ◌≤◌, IfNone, IfSome, false, length};
ghost use Rattle.region_finder.specs.Listings.{has_op};
ghost use Rattle.region_walk.specs.Covering.{uncovered_entries};
ghost use Rattle.region_walk.specs.Keeping.{IsPlaceAmong, StandsAt, entries_of};
ghost use Rattle.region_walk.specs.Placing.{IsPlace, IsRising};

use crate::entry::Entry;
use crate::user::User;
use region_finder::{Paths, Probe, Steps};
use region_tree::{Need, OpNumber};
use std::alloc::{AllocError, Global};
use std::marker::Model;
use std::sync::ledger::Ledger;

/// An operation that was listed, and whether it has ended.
#[derive(Drop)]
pub struct Kept {
    entry: Entry,
    ended: bool,
}

impl Kept {
    ghost use Rattle.std.specs.Prelude.{◌≡◌, ◌≤◌, ◌&&◌, false};
    ghost use Rattle.region_finder.specs.Listings.{ArePlaced, interferes_in};
    ghost use Rattle.region_tree.specs.Needs.{AreNeeds};
    ghost use Rattle.region_walk.specs.Keeping.{is_live};

    pub fn op(&self) -> OpNumber
        ensures { result ≡ self.now.entry.op }
    {
        self.entry.op()
    }

    /// Whether the operation hasn't ended, is of a context, and its needs interfere with these.
    pub fn interferes<L: Ledger, P: Probe<L>>(
        &self,
        tree: &P,
        context: OpNumber,
        needs: &[Need],
        steps: &mut Steps<L>,
    ) -> bool
        requires placed { self.now.ended ≡ false → ArePlaced (P.Paths.forest tree.now) self.now.entry }
        requires needs { AreNeeds (P.Paths.forest tree.now) needs.now }
        ensures value { result ≡ (is_live self.now
            && interferes_in (P.Paths.forest tree.now) context.0 needs.now self.now.entry) }
        ensures steps { steps.old ≤ steps.new }
    {
        !self.ended && self.entry.interferes(tree, context, needs, steps)
    }
}

/// Entries in rising order. Those of operations that have ended stay until they are tidied up.
#[derive(Drop)]
pub struct Entries {
    kept: Vec<Kept>,
    ended: usize,
}

impl Model for Entries {
    ghost use Rattle.std.specs.Prelude.{List};
    ghost use Rattle.region_walk.specs.Keeping.{entries_of};
    ghost use Rattle.region_walk.specs.Placing.{IsRising};
    ghost use Rattle.region_walk.specs.declared.entries.Kept.{Kept};

    ghost Value = { List Kept };

    ghost view = { λ e. e.kept.items };

    ghost invariant = { λ e. IsRising (entries_of e.kept.items) };
}

impl Entries {
    ghost use Rattle.std.specs.Prelude.{◌≡◌, [], false, filter, map, OnErr, OnOk};
    ghost use Rattle.region_finder.specs.Listings.{has_op, inserted, listed};
    ghost use Rattle.region_tree.specs.Needs.{AreNeeds};
    ghost use Rattle.region_walk.specs.Covering.{uncovered_entries};
    ghost use Rattle.region_walk.specs.Keeping.{end_op, entries_of, is_live, live};
    ghost use Rattle.region_walk.specs.Placing.{IsRising};
    ghost use Rattle.region_walk.specs.Ranges.{uncovered_among, uncovered_of};

    pub fn new(alloc: Global) -> Entries
        ensures { result ≡ [] }
    {
        Entries {
            kept: Vec::new(alloc),
            ended: 0,
        }
    }

    pub fn allocator(&self) -> Global {
        *self.kept.allocator()
    }

    pub fn as_slice(&self) -> &[Kept]
        ensures value { result.now ≡ self.now }
        ensures rising { IsRising (entries_of self.now) }
    {
        self.kept.as_slice()
    }

    /// Whether an operation has an entry.
    pub fn knows(&self, op: OpNumber) -> bool
        ensures { result ≡ has_op (entries_of self.now) op.0 }
    {
        find(self.kept.as_slice(), op).is_some()
    }

    /// Whether an operation has an entry and hasn't ended.
    pub fn has(&self, op: OpNumber) -> bool
        ensures { result ≡ has_op (live self.now) op.0 }
    {
        match find(self.kept.as_slice(), op) {
            Some(place) => !self.kept[place].ended,
            None => false,
        }
    }

    /// One more entry.
    pub fn add<P: Paths>(
        &mut self,
        tree: &P,
        context: OpNumber,
        op: OpNumber,
        needs: &[Need],
    ) -> Result<(), AllocError>
        requires needs { AreNeeds (P.forest tree.now) needs.now }
        requires absent { has_op (entries_of self.old) op.0 ≡ false }
        ensures entries { OnOk result (entries_of self.new
            ≡ inserted (listed (P.forest tree.now) context op needs.now) (entries_of self.old)) }
        ensures live { OnOk result (live self.new
            ≡ inserted (listed (P.forest tree.now) context op needs.now) (live self.old)) }
        ensures unchanged { OnErr result (self.new ≡ self.old) }
    {
        let entry = Entry::new(*self.kept.allocator(), tree, context, op, needs)?;
        let place = place_of(self.kept.as_slice(), op);
        let ended = false;
        self.kept.insert(place, Kept { entry, ended })?;
        Ok(())
    }

    /// An operation ends; its entry stays.
    pub fn end(&mut self, op: OpNumber)
        ensures { self.new ≡ map (end_op op.0) self.old }
    {
        if let Some(place) = find(self.kept.as_slice(), op) {
            self.ended = self
                .ended
                .saturating_add(usize::from(!self.kept[place].ended));
            self.kept[place].ended = true;
        }
    }

    /// Takes out of the entry of one operation what these needs of another one cover.
    fn uncover_of(&mut self, one: OpNumber, context: OpNumber, op: OpNumber, needs: &[Need])
        ensures { self.new ≡ map (uncovered_of one.0 context.0 op.0 needs.now) self.old }
    {
        if let Some(place) = find(self.kept.as_slice(), one) {
            self.kept[place].entry.uncover(context, op, needs);
        }
    }

    /// The same of all operations that have one of these users.
    pub fn uncover_among(&mut self, users: &[User], context: OpNumber, op: OpNumber, needs: &[Need])
        ensures { self.new ≡ map (uncovered_among users.now context.0 op.0 needs.now) self.old }
    {
        for user in users {
            self.uncover_of(user.op(), context, op, needs);
        }
    }

    /// Takes out of all entries what these needs of an operation cover.
    pub fn uncover(&mut self, context: OpNumber, op: OpNumber, needs: &[Need])
        ensures { self.new ≡ uncovered_entries context.0 op.0 needs.now self.old }
    {
        uncover_all(&mut self.kept, context, op, needs);
    }

    /// How many there are.
    pub fn len(&self) -> usize {
        self.kept.len()
    }

    /// Whether more than half of the entries are of operations that have ended.
    pub fn are_stale(&self) -> bool {
        self.ended > self.kept.len() / 2
    }

    /// Takes out the entries of operations that have ended.
    pub fn tidy(&mut self)
        ensures { self.new ≡ filter is_live self.old }
    {
        self.kept.retain(|kept| !kept.ended);
        self.ended = 0;
    }
}

/// Takes out of all of these what some needs cover.
fn uncover_all(kept: &mut Vec<Kept>, context: OpNumber, op: OpNumber, needs: &[Need])
    ensures { kept.new.items ≡ uncovered_entries context.0 op.0 needs.now kept.old.items }
{
    for place in 0..kept.len() {
        kept[place].entry.uncover(context, op, needs);
    }
}

/// The place of an operation among entries in rising order: behind all with smaller numbers. It mostly is the end.
fn place_of(kept: &[Kept], op: OpNumber) -> usize
    requires rising { IsRising (entries_of kept.now) }
    ensures place { IsPlace op.0 (entries_of kept.now) result }
    ensures below { result ≤ length kept.now }
{
    let mut place = kept.len();
    while place > 0 && op.0 < kept[place - 1].entry.op().0 {
        place -= 1;
    }
    place
}

/// The place of an operation's entry, if it has one.
fn find(kept: &[Kept], op: OpNumber) -> Option<usize>
    requires rising { IsRising (entries_of kept.now) }
    ensures there { IfSome result (StandsAt op.0 kept.now) }
    ensures nowhere { IfNone result (has_op (entries_of kept.now) op.0 ≡ false) }
{
    let place = place_among(kept, op);
    if place < kept.len() && kept[place].entry.op().0 == op.0 {
        return Some(place);
    }
    None
}

/// The place behind all smaller operations.
fn place_among(kept: &[Kept], op: OpNumber) -> usize
    requires rising { IsRising (entries_of kept.now) }
    ensures below { result ≤ length kept.now }
    ensures place { IsPlaceAmong op.0 kept.now result }
{
    kept.partition_point(|one| one.entry.op().0 < op.0)
}
