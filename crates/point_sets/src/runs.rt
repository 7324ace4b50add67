//! Runs of points, and rising lists of them.

ghost use Rattle.std.specs.Prelude.{◌≡◌, ◌+◌, ◌<◌, ◌≤◌, ℕ, All, IsTrue, false, length, take};
ghost use Rattle.point_sets.specs.Runs.{AreRunEnds, AreRuns, IsFirstTo, IsFirstWithMore, IsJoined, points_in};
ghost use Rattle.point_sets.specs.Sweeps.{AllOrNone, IsNear};

use crate::POINT_LIMIT;

/// The points from the first to the last.
#[derive(Clone, Copy, Debug)]
pub struct Run {
    pub first: u32,
    pub last: u32,
    /// How many points the list has up to the last of this run.
    pub total: u32,
}

/// Whether the last run ends just before a point.
pub fn ends_before(runs: &[Run], point: u32) -> bool
    requires { AreRuns runs.now }
    ensures joined { IsTrue result → IsJoined runs.now point }
    ensures apart { result ≡ false → ¬ IsJoined runs.now point }
{
    let count = runs.len();
    count > 0 && runs[count - 1].last + 1 == point
}

/// The place of the first run that ends at a point or behind it.
pub fn first_run_to(runs: &[Run], point: u32) -> usize
    requires { AreRuns runs.now }
    ensures { IsFirstTo runs.now result point }
{
    runs.partition_point(|run| run.last < point)
}

/// The place of the first run with more than so many points up to its end.
pub fn first_run_with_more(runs: &[Run], many: u32) -> usize
    requires { AreRuns runs.now }
    ensures { IsFirstWithMore runs.now result many }
{
    runs.partition_point(|run| run.total <= many)
}

/// The first point of runs and the last one, or zeros where there are no runs.
pub fn ends_of(runs: &[Run]) -> (u32, u32)
    requires { AreRuns runs.now }
    ensures { AreRunEnds runs.now result.0 result.1 }
{
    let count = runs.len();
    if count == 0 {
        return (0, 0);
    }
    (runs[0].first, runs[count - 1].last)
}

/// Up to where a list of runs holds all points or none.
#[derive(Clone, Copy, Debug)]
pub struct Stretch {
    pub inside: bool,
    pub end: u32,
}

/// The stretch that begins at a point, of which the first run to it is known.
pub fn stretch_at(runs: &[Run], place: usize, point: u32) -> Stretch
    requires runs { AreRuns runs.now }
    requires first { IsFirstTo runs.now place point }
    requires point_in { point < POINT_LIMIT }
    ensures ahead { point < result.end }
    ensures below { result.end ≤ POINT_LIMIT }
    ensures even { AllOrNone (points_in runs.now) point result.end result.inside }
    ensures near { IsNear runs.now place result.end }
{
    if place == runs.len() {
        return Stretch {
            inside: false,
            end: POINT_LIMIT,
        };
    }
    let run = runs[place];
    if point < run.first {
        Stretch {
            inside: false,
            end: run.first,
        }
    } else {
        Stretch {
            inside: true,
            end: run.last + 1,
        }
    }
}

/// The place of the first run to a point, where that is a place or the one behind it.
pub fn place_ahead(runs: &[Run], place: usize, point: u32) -> usize
    requires runs { AreRuns runs.now }
    requires inside { place ≤ length runs.now }
    requires passed { All (λ r. r.last < point) (take place runs.now) }
    requires near { IsNear runs.now place point }
    ensures { IsFirstTo runs.now result point }
{
    if place < runs.len() && runs[place].last < point {
        place + 1
    } else {
        place
    }
}
