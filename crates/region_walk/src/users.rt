//! The users of all regions, by context, root, field and node.

ghost use Rattle.std.specs.Prelude.{◌≡◌, ◌≤◌, ◌<◌, ◌+◌, ◌++◌, ◌∷◌, [], All, IsPermutation, OnOk, drop, false, filter, get_or, length, map, reverse, true, ℕ};
ghost use Rattle.region_tree.specs.Needs.{AreNeeds, IsNeed, requirement_of};
ghost use Rattle.region_tree.specs.Requirements.{conflict};
ghost use Rattle.region_finder.specs.Listings.{IsListingOf, all_uncovered, placed};
ghost use Rattle.region_walk.specs.Found.{put_all, put_met, put_where};
ghost use Rattle.region_walk.specs.Keeping.{AreKept, live, live_users};
ghost use Rattle.region_walk.specs.Near.{is_met, is_near, near_users};
ghost use Rattle.region_walk.specs.Sides.{AreByKey, ArePassed, IsPlaceByKey, is_less, key, least_key};
ghost use Rattle.region_walk.specs.Users.{IsUser, ListedNeed, is_of_another, listed_need};

use crate::entries::Entries;
use crate::found::Found;
use crate::placed::way_down;
use crate::ranges::{range_of, sift};
use crate::user::User;
use region_finder::{Paths, Probe, Steps};
use region_tree::{Need, Node, OpNumber};
use std::alloc::{AllocError, Global};
use std::marker::Model;
use std::sync::ledger::Ledger;

/// All users.
#[derive(Drop)]
pub struct Users {
    users: Vec<User>,
}

impl Model for Users {
    ghost use Rattle.std.specs.Prelude.{List};
    ghost use Rattle.region_walk.specs.Sides.{AreByKey, ArePassed, IsPlaceByKey, is_less, key, least_key};
    ghost use Rattle.region_walk.specs.Users.{ListedNeed};

    ghost Value = { List ListedNeed };

    ghost view = { λ u. u.users.items };

    ghost invariant = { λ u. AreByKey u.users.items };
}

impl Users {
    pub fn new(alloc: Global) -> Users
        ensures { result ≡ [] }
    {
        Users {
            users: Vec::new(alloc),
        }
    }

    /// One more user, in its place.
    fn insert(&mut self, user: User) -> Result<(), AllocError>
        ensures added { OnOk result (IsPermutation (user ∷ self.old) self.new) }
        ensures others { filter (is_of_another user.op.0) self.new ≡ filter (is_of_another user.op.0) self.old }
    {
        insert_user(&mut self.users, user)
    }

    /// The needs of an operation. Where memory is missing some of them may have been added.
    pub fn add<P: Paths>(
        &mut self,
        tree: &P,
        context: OpNumber,
        op: OpNumber,
        needs: &[Need],
    ) -> Result<(), AllocError>
        requires { AreNeeds (P.forest tree.now) needs.now }
        ensures added { OnOk result (IsPermutation
            (map (listed_need context op) (map (placed (P.forest tree.now)) needs.now) ++ self.old) self.new) }
        ensures others { filter (is_of_another op.0) self.new ≡ filter (is_of_another op.0) self.old }
    {
        let alloc = *self.users.allocator();
        for need in needs {
            let user = User::new(alloc, tree, context, op, need)?;
            self.insert(user)?;
        }
        Ok(())
    }

    /// Takes all needs of an operation out.
    pub fn remove(&mut self, op: OpNumber)
        ensures { self.new ≡ filter (is_of_another op.0) self.old }
    {
        self.users.retain(|user| user.is_of_another(op));
    }

    /// Takes all users out whose operations aren't listed.
    pub fn keep(&mut self, listed: &Entries)
        ensures { self.new ≡ live_users (live listed.now) self.old }
    {
        self.users.retain(|user| listed.has(user.op()));
    }

    /// Takes the users out that a need of an operation covers, and what it covers out of their entries.
    pub fn uncover<P: Paths>(
        &mut self,
        entries: &mut Entries,
        tree: &P,
        context: OpNumber,
        op: OpNumber,
        need: &Need,
    )
        requires kept { AreKept entries.old self.old }
        requires listing { IsListingOf (P.forest tree.now) (live entries.old) }
        requires need { IsNeed (P.forest tree.now) need.now }
        ensures kept { AreKept entries.new self.new }
        ensures live { live entries.new ≡ all_uncovered context.0 op.0 (need.now ∷ []) (live entries.old) }
    {
        let alloc = *self.users.allocator();
        let (from, to) = range_of(self.users.as_slice(), alloc, tree, context, op, need);
        let needs = [*need];
        entries.uncover_among(&self.users[from..to], context, op, &needs);
        sift(&mut self.users, from, to, context, op, &needs);
    }

    /// How many there are.
    pub fn len(&self) -> usize {
        self.users.len()
    }

    /// Puts the listed operations that conflict with some of these needs to those that were found. Each test of
    /// points is of a user that isn't separated from the need.
    pub fn find_all<L: Ledger, P: Probe<L>>(
        &self,
        listed: &Entries,
        tree: &P,
        context: OpNumber,
        needs: &[Need],
        found: &mut Found,
        steps: &mut Steps<L>,
    ) -> Result<(), AllocError>
        requires users { All (IsUser (P.Paths.forest tree.now)) (live_users (live listed.now) self.now) }
        requires needs { AreNeeds (P.Paths.forest tree.now) needs.now }
        ensures found { OnOk result (found.new
            ≡ put_met (P.Paths.forest tree.now) context.0 needs.now (live_users (live listed.now) self.now) found.old) }
        ensures bound { steps.new
            ≤ steps.old + near_users (P.Paths.forest tree.now) context.0 needs.now (live_users (live listed.now) self.now) }
        ensures steps { steps.old ≤ steps.new }
    {
        for need in needs {
            self.find(listed, tree, context, need, found, steps)?;
        }
        Ok(())
    }

    /// The same for one need.
    fn find<L: Ledger, P: Probe<L>>(
        &self,
        listed: &Entries,
        tree: &P,
        context: OpNumber,
        need: &Need,
        found: &mut Found,
        steps: &mut Steps<L>,
    ) -> Result<(), AllocError>
        requires users { All (IsUser (P.Paths.forest tree.now)) (live_users (live listed.now) self.now) }
        requires need { IsNeed (P.Paths.forest tree.now) need.now }
        ensures found { OnOk result (found.new
            ≡ put_all (filter (is_met (P.Paths.forest tree.now) context.0 need.now) (live_users (live listed.now) self.now)) found.old) }
        ensures bound { steps.new
            ≤ steps.old + length (filter (is_near (P.Paths.forest tree.now) context.0 need.now) (live_users (live listed.now) self.now)) }
        ensures steps { steps.old ≤ steps.new }
    {
        let way = way_down(*self.users.allocator(), tree, need.node)?;
        let users = self.users.as_slice();
        let mut place = first(users, context, need);
        while place < users.len() {
            let user = &users[place];
            if !listed.has(user.op()) {
                found.pass();
                place += 1;
            } else if user.is_near(tree, context, need) {
                meet(user, tree, need, found, steps)?;
                place += 1;
            } else {
                place = past(users, context, need, way.as_slice(), place);
            }
        }
        Ok(())
    }
}

/// One more user, in its place.
fn insert_user(users: &mut Vec<User>, user: User) -> Result<(), AllocError>
    requires { AreByKey users.old.items }
    ensures by_key { AreByKey users.new.items }
    ensures added { OnOk result (IsPermutation (user ∷ users.old.items) users.new.items) }
    ensures others { filter (is_of_another user.op.0) users.new.items
        ≡ filter (is_of_another user.op.0) users.old.items }
{
    let place = place_for(users.as_slice(), &user);
    users.insert(place, user)?;
    Ok(())
}

/// The place of a user: behind those whose keys are at most its own.
fn place_for(users: &[User], user: &User) -> usize
    requires { AreByKey users.now }
    ensures below { result ≤ length users.now }
    ensures place { IsPlaceByKey user.now users.now result }
{
    users.partition_point(|other| !user.is_before(other))
}

/// The place behind all users that come before those of a context with the root and field of a need.
fn first(users: &[User], context: OpNumber, need: &Need) -> usize
    requires { AreByKey users.now }
    ensures below { result ≤ length users.now }
    ensures before { (i : ℕ) (d : ListedNeed) → i < result
        → is_less (key (get_or users.now i d)) (least_key context.0 need.now) ≡ true }
{
    users.partition_point(|user| user.is_below(context, need))
}

/// Puts a user's operation to those that were found, if the user's need conflicts with another one.
fn meet<L: Ledger, P: Probe<L>>(
    user: &User,
    tree: &P,
    need: &Need,
    found: &mut Found,
    steps: &mut Steps<L>,
) -> Result<(), AllocError>
    requires user { IsUser (P.Paths.forest tree.now) user.now }
    requires need { IsNeed (P.Paths.forest tree.now) need.now }
    ensures found { OnOk result (found.new
        ≡ put_where (conflict (requirement_of (P.Paths.forest tree.now) need.now)
        (requirement_of (P.Paths.forest tree.now) user.now.placed.need)) user.now.op found.old) }
    ensures bound { steps.new ≤ steps.old + 1 }
    ensures steps { steps.old ≤ steps.new }
{
    if user.conflicts(tree, need, steps) {
        found.put(user.op())?;
    }
    Ok(())
}

/// A place behind that of a user, such that all between the two are of another root or field, or leave the way
/// to the need's node as that one does.
fn past(users: &[User], context: OpNumber, need: &Need, way: &[(Node, u32)], place: usize) -> usize
    requires by_key { AreByKey users.now }
    requires below { place < length users.now }
    ensures behind { place < result }
    ensures below { result ≤ length users.now }
    ensures passed { ArePassed context.0 need.now way.now place result users.now }
{
    if users[place].is_of(context, need) {
        past_beside(users, context, need, way, place)
    } else if users[place].is_below(context, need) {
        place + 1
    } else {
        users.len()
    }
}

/// The same behind a user of the root and field.
#[tactic(auto, using(crate::proofs::Passing::pass_none))]
fn past_beside(
    users: &[User],
    context: OpNumber,
    need: &Need,
    way: &[(Node, u32)],
    place: usize,
) -> usize
    requires by_key { AreByKey users.now }
    requires below { place < length users.now }
    ensures behind { place < result }
    ensures below { result ≤ length users.now }
    ensures passed { ArePassed context.0 need.now way.now place result users.now }
{
    let parts = users[place].parts_from(way);
    if users[place].is_beside(context, need, way, parts) {
        let rest = &users[place..];
        place + rest.partition_point(|other| other.is_beside(context, need, way, parts))
    } else {
        place + 1
    }
}
