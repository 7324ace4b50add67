//! Which operations are ready, as others end.

ghost use Rattle.std.specs.Prelude.{◌≡◌, ◌<◌, ◌≤◌, Contains, OnOk, ℕ, false, get_or, length, take, true};
ghost use Rattle.least_set.specs.Members.{has};
ghost use Rattle.dependence_graph.specs.Knots.{all_done, is_done, is_idle, is_ready, knot_at, number, stage_at};
ghost use Rattle.dependence_graph.specs.Links.{AreGrown, AreReady, AreTold, HasAll, HasReady, IsLinked, waiters_at};

use crate::knot::Knot;
use crate::knots::is_done;
use crate::link::Link;
use least_set::LeastSet;
use region_tree::OpNumber;
use std::alloc::AllocError;

/// How many of these operations, from the first on, are Done, if so many are.
fn passed_from(knots: &[Knot], on: &[OpNumber], from: usize) -> usize
    requires { all_done knots.now (take from on.now) ≡ true }
    ensures done { all_done knots.now (take result on.now) ≡ true }
    ensures undone { result < length on.now
        → is_done (stage_at knots.now (get_or on.now result (number 0)).0) ≡ false }
{
    let mut passed = from;
    while passed < on.len() && is_done(knots, on[passed]) {
        passed += 1;
    }
    passed
}

/// Whether all that an operation waits for is Done. What was seen of it is noted.
fn is_clear(knots: &[Knot], links: &mut Vec<Link>, place: usize) -> bool
    requires linked { IsLinked knots.now links.old.items }
    requires there { place < length knots.now }
    ensures linked { IsLinked knots.now links.new.items }
    ensures waiters { (k : ℕ) → waiters_at links.new.items k ≡ waiters_at links.old.items k }
    ensures clear { result ≡ all_done knots.now (knot_at knots.now place).on }
{
    let on = knots[place].on();
    let passed = passed_from(knots, on, links[place].passed);
    let link = &mut links[place];
    link.passed = passed;
    passed >= on.len()
}

/// Notes that an operation that waits is ready, if it is.
fn refresh_idle(knots: &[Knot], links: &mut Vec<Link>, ready: &mut LeastSet, place: usize)
    requires linked { IsLinked knots.now links.old.items }
    requires room { length knots.now ≤ length ready.old }
    requires ready { AreReady knots.now ready.old }
    requires there { place < length knots.now }
    requires idle { is_idle (knot_at knots.now place).stage ≡ true }
    ensures linked { IsLinked knots.now links.new.items }
    ensures waiters { (k : ℕ) → waiters_at links.new.items k ≡ waiters_at links.old.items k }
    ensures ready { AreReady knots.now ready.new }
    ensures room { length ready.new ≡ length ready.old }
    ensures all { HasAll ready.old ready.new }
    ensures found { is_ready knots.now place ≡ true → has ready.new place ≡ true }
{
    if is_clear(knots, links, place) {
        ready.insert(place);
    }
}

/// Notes that an operation is ready, if it is.
pub fn refresh(knots: &[Knot], links: &mut Vec<Link>, ready: &mut LeastSet, place: usize)
    requires linked { IsLinked knots.now links.old.items }
    requires room { length knots.now ≤ length ready.old }
    requires ready { AreReady knots.now ready.old }
    ensures linked { IsLinked knots.now links.new.items }
    ensures waiters { (k : ℕ) → waiters_at links.new.items k ≡ waiters_at links.old.items k }
    ensures ready { AreReady knots.now ready.new }
    ensures room { length ready.new ≡ length ready.old }
    ensures all { HasAll ready.old ready.new }
    ensures found { is_ready knots.now place ≡ true → has ready.new place ≡ true }
{
    if place < knots.len() && knots[place].stage().is_idle() {
        refresh_idle(knots, links, ready, place);
    }
}

/// An operation that waits for another, by its place among those that do.
fn waiter(links: &[Link], place: usize, index: usize) -> usize
    requires there { place < length links.now }
    requires below { index < length (waiters_at links.now place) }
    ensures { result ≡ get_or (waiters_at links.now place) index 0 }
{
    links[place].waiters.as_slice()[index]
}

/// Notes which of those that wait for an operation are ready.
pub fn refresh_waiters(knots: &[Knot], links: &mut Vec<Link>, ready: &mut LeastSet, place: usize)
    requires linked { IsLinked knots.now links.old.items }
    requires there { place < length knots.now }
    requires room { length knots.now ≤ length ready.old }
    requires ready { AreReady knots.now ready.old }
    ensures linked { IsLinked knots.now links.new.items }
    ensures ready { AreReady knots.now ready.new }
    ensures room { length ready.new ≡ length ready.old }
    ensures all { HasAll ready.old ready.new }
    ensures found { HasReady knots.now (waiters_at links.old.items place) ready.new }
{
    for index in 0..links[place].waiters.len() {
        let waiter = waiter(links, place, index);
        refresh(knots, links, ready, waiter);
    }
}

/// Notes which operations from a number on are ready.
pub fn refresh_from(knots: &[Knot], links: &mut Vec<Link>, ready: &mut LeastSet, first: usize)
    requires linked { IsLinked knots.now links.old.items }
    requires room { length knots.now ≤ length ready.old }
    requires ready { AreReady knots.now ready.old }
    ensures linked { IsLinked knots.now links.new.items }
    ensures ready { AreReady knots.now ready.new }
    ensures room { length ready.new ≡ length ready.old }
    ensures all { HasAll ready.old ready.new }
    ensures found { (k : ℕ) → first ≤ k → is_ready knots.now k ≡ true → has ready.new k ≡ true }
{
    for place in first..knots.len() {
        refresh(knots, links, ready, place);
    }
}

/// Lets an operation know of one that waits for it.
fn add_waiter(links: &mut Vec<Link>, op: OpNumber, waiter: usize) -> Result<(), AllocError>
    ensures grown { AreGrown links.old.items links.new.items }
    ensures linked { OnOk result (op.0 < length links.old.items
        → Contains (waiters_at links.new.items op.0) waiter) }
{
    let place = op.0 as usize;
    if place < links.len() {
        let link = &mut links[place];
        link.waiters.push(waiter)?;
    }
    Ok(())
}

/// Lets those that an operation waits for know of it. Where memory is missing, some may know already.
pub fn link(links: &mut Vec<Link>, on: &[OpNumber], waiter: usize) -> Result<(), AllocError>
    ensures grown { AreGrown links.old.items links.new.items }
    ensures linked { OnOk result (AreTold links.new.items on.now waiter) }
{
    for op in on {
        add_waiter(links, *op, waiter)?;
    }
    Ok(())
}
