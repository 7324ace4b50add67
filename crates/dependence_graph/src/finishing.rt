//! How an operation ends as Done.

ghost use Rattle.std.specs.Prelude.{◌≡◌, true};
ghost use Rattle.dependence_graph.specs.Graphs.{ended};
ghost use Rattle.dependence_graph.specs.Issues.{state};
ghost use Rattle.dependence_graph.specs.Knots.{is_in_progress, knot_at};
ghost use Rattle.dependence_graph.specs.Links.{IsKept};

use crate::knot::Knot;
use crate::knots::enter;
use crate::link::Link;
use crate::linking::{refresh, refresh_waiters};
use crate::stage::{How, Stage};
use least_set::LeastSet;
use region_finder::Finder;
use region_tree::OpNumber;

/// Ends an operation as Done, and finds what is ready by that.
pub fn finish<F: Finder>(
    finder: &mut F,
    knots: &mut Vec<Knot>,
    links: &mut Vec<Link>,
    ready: &mut LeastSet,
    op: OpNumber,
)
    requires kept { IsKept knots.old.items links.old.items ready.old (F.listing finder.old) }
    requires progress { is_in_progress (knot_at knots.old.items op.0).stage ≡ true }
    ensures kept { IsKept knots.new.items links.new.items ready.new (F.listing finder.new) }
    ensures ended { state knots.new.items (F.listing finder.new)
        ≡ ended (state knots.old.items (F.listing finder.old)) op.0 How.Done }
{
    let place = op.0 as usize;
    let parent = knots[place].parent();
    ready.remove(place);
    enter(knots, place, Stage::Done);
    finder.ended(op);
    refresh_waiters(knots, links, ready, place);
    refresh(knots, links, ready, parent.0 as usize);
}
