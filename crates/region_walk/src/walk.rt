//! A finder that walks through the users of a need's field.

ghost use Rattle.std.specs.Prelude.{◌≡◌, ◌≤◌, ◌+◌, ◌++◌, ◌∷◌, [], false, filter, IfOk, IsPermutation, OnErr, OnOk};
ghost use Rattle.region_tree.specs.Needs.{AreNeeds, IsNeed};
ghost use Rattle.region_finder.specs.Listings.{AreRising, IsListingOf, all_uncovered, earlier, has_op, inserted, listed};
ghost use Rattle.region_walk.specs.Keeping.{AreKept, entries_of, is_live, live};
ghost use Rattle.region_walk.specs.Near.{near_pairs, needs_of_context};
ghost use Rattle.region_walk.specs.Users.{is_of_another, users_in};

use crate::covers::is_write;
use crate::entries::Entries;
use crate::found::Found;
use crate::users::Users;
use region_finder::{Finder, Paths, Probe, Steps};
use region_tree::{Need, Needs, OpNumber};
use std::alloc::{AllocError, Global};
use std::marker::Model;
use std::sync::ledger::Ledger;

/// A finder that keeps the users of each context by root, field and node, and tests those alone whose nodes
/// aren't separated from that of a new need. Entries and users of operations that have ended stay for a while.
#[derive(Drop)]
pub struct WalkFinder {
    entries: Entries,
    users: Users,
    passed: usize,
}

impl Model for WalkFinder {
    ghost use Rattle.std.specs.Prelude.{List};
    ghost use Rattle.region_finder.specs.Listings.{Listed};
    ghost use Rattle.region_walk.specs.Keeping.{AreKept, live};

    ghost Value = { List Listed };

    ghost view = { λ f. live f.entries };

    ghost invariant = { λ f. AreKept f.entries f.users };
}

impl WalkFinder {
    ghost use Rattle.std.specs.Prelude.{◌≡◌, [], IsOkAnd};

    /// A finder that lists nothing; it takes no memory.
    pub fn new(alloc: Global) -> Result<WalkFinder, AllocError>
        ensures { IsOkAnd result (λ f. f ≡ []) }
    {
        Ok(WalkFinder {
            entries: Entries::new(alloc),
            users: Users::new(alloc),
            passed: 0,
        })
    }

    /// Counts users that were passed, and tidies up where more were passed than there are entries and users.
    fn passes(&mut self, count: usize)
        ensures { self.new ≡ self.old }
    {
        self.passed = self.passed.saturating_add(count);
        if self.passed > self.users.len().saturating_add(self.entries.len()) {
            self.tidy();
        }
    }

    /// Takes out what is kept of operations that have ended.
    fn tidy(&mut self)
        ensures { self.new ≡ self.old }
    {
        tidy(&mut self.entries, &mut self.users);
        self.passed = 0;
    }
}

impl Finder for WalkFinder {
    ghost listing = { λ f. f };

    /// Takes at most as many steps as there are pairs of one of these needs and a listed need of the context
    /// on the same root and field, whose nodes aren't separated.
    fn earlier<L: Ledger, P: Probe<L>>(
        &mut self,
        tree: &P,
        context: OpNumber,
        needs: &Needs,
        steps: &mut Steps<L>,
    ) -> Result<Vec<OpNumber>, AllocError>
        requires listing { IsListingOf (P.Paths.forest tree.now) self.old }
        requires needs { AreNeeds (P.Paths.forest tree.now) needs.now.items }
        ensures found { IfOk result (λ v. v.items
            ≡ earlier (P.Paths.forest tree.now) self.old context.0 needs.now.items) }
        ensures rising { IfOk result (λ v. AreRising v.items) }
        ensures listing { self.new ≡ self.old }
        ensures steps { steps.old ≤ steps.new }
        ensures bound { steps.new ≤ steps.old
            + near_pairs (P.Paths.forest tree.now) needs.now.items (needs_of_context self.old context.0) }
    {
        let mut found = Found::new(self.entries.allocator());
        self.users.find_all(
            &self.entries,
            tree,
            context,
            needs.items.as_slice(),
            &mut found,
            steps,
        )?;
        self.passes(found.passed());
        Ok(found.into_ops())
    }

    fn add<P: Paths>(
        &mut self,
        tree: &P,
        context: OpNumber,
        op: OpNumber,
        needs: &Needs,
    ) -> Result<(), AllocError> {
        tidy_for(&mut self.entries, &mut self.users, op);
        match add_both(&mut self.entries, &mut self.users, tree, context, op, needs) {
            Ok(()) => Ok(()),
            Err(error) => {
                self.users.remove(op);
                Err(error)
            }
        }
    }

    /// Tidies up where more than half of the entries are of operations that have ended.
    fn ended(&mut self, op: OpNumber) {
        self.entries.end(op);
        if self.entries.are_stale() {
            self.tidy();
        }
    }

    fn cover<P: Paths>(&mut self, tree: &P, context: OpNumber, op: OpNumber, needs: &Needs) {
        cover_each(
            &mut self.entries,
            &mut self.users,
            tree,
            context,
            op,
            needs.items.as_slice(),
        );
    }
}

/// Takes out of entries and users what a need of an operation covers.
fn cover_one<P: Paths>(
    entries: &mut Entries,
    users: &mut Users,
    tree: &P,
    context: OpNumber,
    op: OpNumber,
    need: &Need,
)
    requires kept { AreKept entries.old users.old }
    requires listing { IsListingOf (P.forest tree.now) (live entries.old) }
    requires need { IsNeed (P.forest tree.now) need.now }
    ensures kept { AreKept entries.new users.new }
    ensures live { live entries.new ≡ all_uncovered context.0 op.0 (need.now ∷ []) (live entries.old) }
{
    if is_write(need.mode) {
        users.uncover(entries, tree, context, op, need);
    }
}

/// Takes out of entries and users what these needs of an operation cover.
fn cover_each<P: Paths>(
    entries: &mut Entries,
    users: &mut Users,
    tree: &P,
    context: OpNumber,
    op: OpNumber,
    needs: &[Need],
)
    requires kept { AreKept entries.old users.old }
    requires listing { IsListingOf (P.forest tree.now) (live entries.old) }
    requires needs { AreNeeds (P.forest tree.now) needs.now }
    ensures kept { AreKept entries.new users.new }
    ensures live { live entries.new ≡ all_uncovered context.0 op.0 needs.now (live entries.old) }
{
    for place in 0..needs.len() {
        cover_one(entries, users, tree, context, op, &needs[place]);
    }
}

/// Takes out the entries and users of operations that have ended.
fn tidy(entries: &mut Entries, users: &mut Users)
    requires { AreKept entries.old users.old }
    ensures kept { AreKept entries.new users.new }
    ensures entries { entries.new ≡ filter is_live entries.old }
{
    users.keep(entries);
    entries.tidy();
}

/// Does so where there is an entry of an operation that is to be listed again.
fn tidy_for(entries: &mut Entries, users: &mut Users, op: OpNumber)
    requires kept { AreKept entries.old users.old }
    requires absent { has_op (live entries.old) op.0 ≡ false }
    ensures kept { AreKept entries.new users.new }
    ensures live { live entries.new ≡ live entries.old }
    ensures absent { has_op (entries_of entries.new) op.0 ≡ false }
{
    if entries.knows(op) {
        tidy(entries, users);
    }
}

/// Lists an operation, and its users. Where memory is missing some of its users may have been added.
fn add_both<P: Paths>(
    entries: &mut Entries,
    users: &mut Users,
    tree: &P,
    context: OpNumber,
    op: OpNumber,
    needs: &Needs,
) -> Result<(), AllocError>
    requires needs { AreNeeds (P.forest tree.now) needs.now.items }
    requires absent { has_op (entries_of entries.old) op.0 ≡ false }
    ensures entries { OnOk result (entries_of entries.new
        ≡ inserted (listed (P.forest tree.now) context op needs.now.items) (entries_of entries.old)) }
    ensures live { OnOk result (live entries.new
        ≡ inserted (listed (P.forest tree.now) context op needs.now.items) (live entries.old)) }
    ensures users { OnOk result (IsPermutation
        (users_in (listed (P.forest tree.now) context op needs.now.items) ++ users.old) users.new) }
    ensures unlisted { OnErr result (entries.new ≡ entries.old) }
    ensures others { filter (is_of_another op.0) users.new ≡ filter (is_of_another op.0) users.old }
{
    users.add(tree, context, op, needs.items.as_slice())?;
    entries.add(tree, context, op, needs.items.as_slice())
}
