//! What a failure does to those that wait.

ghost use Rattle.std.specs.Prelude.{◌≡◌, ◌<◌, ◌&&◌, length};
ghost use Rattle.plain_values.specs.Points.{points};
ghost use Rattle.dependence_graph.specs.Knots.{give_up, give_up_each, given_up, knot_at, same_stage, some_failed, with_stage};

use crate::knot::Knot;
use crate::knots::{enter, set_stage, some_failed};
use crate::stage::Stage;

/// Whether an operation waits in a stage for one that has failed or was dropped.
fn waits_in_vain(knots: &[Knot], place: usize, stage: Stage) -> bool
    requires { place < length knots.now }
    ensures { result ≡ (same_stage (knot_at knots.now place).stage stage
        && some_failed knots.now (knot_at knots.now place).on) }
{
    let knot = &knots[place];
    knot.stage().waits_as(stage) && some_failed(knots, knot.on())
}

/// An operation that waits in one stage gives up, to another, where one that it waits for has failed.
fn give_up(knots: &mut [Knot], place: usize, from: Stage, to: Stage)
    requires { place < length knots.old }
    ensures { knots.new ≡ give_up from to knots.old place }
{
    if waits_in_vain(knots, place, from) {
        set_stage(knots, place, to);
    }
}

/// Each does, in order of issue.
fn give_up_each(knots: &mut [Knot], from: Stage, to: Stage)
    ensures { knots.new ≡ give_up_each from to knots.old (points (length knots.old)) }
{
    for place in 0..knots.len() {
        give_up(knots, place, from, to);
    }
}

/// Drops those that wait for one that failed or was dropped, and so on from there, and stops those that
/// have begun and wait for one.
fn give_up_all(knots: &mut [Knot])
    ensures { knots.new ≡ given_up knots.old }
{
    give_up_each(knots, Stage::Waiting, Stage::Dropped);
    give_up_each(knots, Stage::Parked, Stage::Stopped);
}

/// Ends an operation as Failed, with what follows.
pub fn fail(knots: &mut Vec<Knot>, place: usize)
    requires { place < length knots.old.items }
    ensures { knots.new.items ≡ given_up (with_stage knots.old.items place Stage.Failed) }
{
    enter(knots, place, Stage::Failed);
    give_up_all(knots);
}
