//! Ranges of users: those at a node and below it stand next to each other.

ghost use Rattle.std.specs.Prelude.{◌≡◌, ◌≤◌, ◌<◌, ◌+◌, ◌-◌, ◌∷◌, ◌⊎◌, [], false, get_or, length, not, ℕ};
ghost use Rattle.region_tree.specs.Needs.{IsNeed};
ghost use Rattle.region_walk.specs.Covering.{is_dominated};
ghost use Rattle.region_walk.specs.Ranges.{IsRange, IsStart, is_under, sifted};
ghost use Rattle.region_walk.specs.Sides.{AreByKey};
ghost use Rattle.region_walk.specs.Users.{IsUser, ListedNeed};

use crate::user::User;
use region_finder::Paths;
use region_tree::{Need, OpNumber};
use std::alloc::Global;

/// The place behind all users that come before one.
fn start_of(users: &[User], top: &User) -> usize
    requires { AreByKey users.now }
    ensures below { result ≤ length users.now }
    ensures start { IsStart top.now users.now result }
{
    users.partition_point(|user| user.is_before(top))
}

/// The place behind all users that are under one, from where the first of these stands.
fn end_of(users: &[User], top: &User, from: usize) -> usize
    requires by_key { AreByKey users.now }
    requires below { from ≤ length users.now }
    requires start { IsStart top.now users.now from }
    ensures order { from ≤ result }
    ensures below { result ≤ length users.now }
    ensures range { IsRange top.now users.now from result }
{
    let rest = &users[from..];
    from + rest.partition_point(|user| user.is_under(top))
}

/// Where the users stand that a need may cover, those at its node and below it. Where memory for the way to the
/// node is missing these are all.
pub fn range_of<P: Paths>(
    users: &[User],
    alloc: Global,
    tree: &P,
    context: OpNumber,
    op: OpNumber,
    need: &Need,
) -> (usize, usize)
    requires by_key { AreByKey users.now }
    requires need { IsNeed (P.forest tree.now) need.now }
    ensures order { result.0 ≤ result.1 }
    ensures below { result.1 ≤ length users.now }
    ensures others { (i : ℕ) (d : ListedNeed) → i < length users.now → (i < result.0) ⊎ (result.1 ≤ i)
        → IsUser (P.forest tree.now) (get_or users.now i d)
        → is_dominated context.0 op.0 (need.now ∷ []) (get_or users.now i d) ≡ false }
{
    match User::new(alloc, tree, context, op, need) {
        Ok(top) => {
            let from = start_of(users, &top);
            (from, end_of(users, &top, from))
        }
        Err(_) => (0, users.len()),
    }
}

/// Takes those of a range out that are covered.
pub fn sift(
    users: &mut Vec<User>,
    from: usize,
    to: usize,
    context: OpNumber,
    op: OpNumber,
    needs: &[Need],
)
    requires order { from ≤ to }
    requires below { to ≤ length users.old.items }
    ensures { users.new.items
        ≡ sifted (λ u. not (is_dominated context.0 op.0 needs.now u)) from (to - from) users.old.items }
{
    let mut place = from;
    let mut end = to;
    while place < end {
        if users[place].is_dominated(context, op, needs) {
            users.remove(place);
            end -= 1;
        } else {
            place += 1;
        }
    }
}
