//! Sets of points as runs.

ghost use Rattle.std.specs.Prelude.{◌≡◌, ◌↔◌, ◌++◌, ◌-◌, ◌<◌, ◌≤◌, ◌==◌, ℕ, [], All, Contains};
ghost use Rattle.std.specs.Prelude.{IfOk, IfSome, IsTrue, OnOk, false, length, position, slice_get};
ghost use Rattle.plain_values.specs.Points.{IsPoints, counted_from, has};
ghost use Rattle.point_sets.specs.Forms.{AreWordsOf, plane_points, runs_of};
ghost use Rattle.point_sets.specs.Operations.{combined_of, kept};
ghost use Rattle.point_sets.specs.Stretches.{IsStretchFrom};

use crate::POINT_LIMIT;
use crate::operation::Operation;
use crate::runs::{Run, ends_before, ends_of, first_run_to, first_run_with_more};
use crate::sweep::Sweep;
use bit_planes::{Plane, PlaneBuilder};
use std::alloc::{AllocError, Global};
use std::marker::Model;
use std::ops::Range;

/// A set of points as runs in rising order, which contracts see as the rising list of the points.
#[derive(Debug, Drop)]
pub struct RunSet {
    runs: Vec<Run>,
}

impl Model for RunSet {
    ghost use Rattle.std.specs.Prelude.{List, ℕ};
    ghost use Rattle.point_sets.specs.Runs.{AreRuns, points_in};

    ghost Value = { List ℕ };

    ghost view = { λ a. points_in a.runs.items };

    ghost invariant = { λ a. AreRuns a.runs.items };
}

impl RunSet {
    ghost use Rattle.point_sets.specs.Runs.{AreRuns, points_in};

    /// The set of no points.
    pub fn empty(alloc: Global) -> Result<RunSet, AllocError>
        ensures value { IfOk result (λ r. r ≡ []) }
        ensures points { IfOk result (IsPoints POINT_LIMIT) }
    {
        Ok(RunSet {
            runs: Vec::new(alloc),
        })
    }

    /// The points from `a` to below `b`: none where `b` is at most `a`.
    pub fn range(alloc: Global, a: u32, b: u32) -> Result<RunSet, AllocError>
        requires { b ≤ POINT_LIMIT }
        ensures value { IfOk result (λ r. r ≡ counted_from a (b - a)) }
        ensures points { IfOk result (IsPoints POINT_LIMIT) }
    {
        let mut out = RunSet::empty(alloc)?;
        if a < b {
            out.push_run(a, b)?;
        }
        Ok(out)
    }

    /// The set of the points of a rising list.
    pub fn from_sorted(alloc: Global, points: &[u32]) -> Result<RunSet, AllocError>
        requires { IsPoints POINT_LIMIT points.now }
        ensures value { IfOk result (λ r. r ≡ points.now) }
    {
        let mut out = RunSet::empty(alloc)?;
        for point in points {
            out.push_run(*point, *point + 1)?;
        }
        Ok(out)
    }

    /// The same set once more.
    pub fn copy(&self) -> Result<RunSet, AllocError>
        ensures value { IfOk result (λ r. r ≡ self.now) }
        ensures points { IfOk result (IsPoints POINT_LIMIT) }
    {
        let runs = Vec::from_slice(*self.runs.allocator(), self.runs.as_slice())?;
        Ok(RunSet { runs })
    }

    /// What an operation makes of two sets.
    pub fn combined(&self, o: &RunSet, operation: Operation) -> Result<RunSet, AllocError>
        ensures value { IfOk result (λ r. r ≡ combined_of operation self.now o.now) }
        ensures points { IfOk result (IsPoints POINT_LIMIT) }
    {
        let mut out = RunSet::empty(*self.runs.allocator())?;
        let mut sweep = Sweep::new(self.as_runs(), o.as_runs());
        while let Some(piece) = sweep.next_piece() {
            if operation.keeps(piece.in_left, piece.in_right) {
                out.push_run(piece.first, piece.end)?;
            }
        }
        Ok(out)
    }

    /// Whether an operation keeps any point of the two sets.
    pub fn any_kept(&self, o: &RunSet, operation: Operation) -> bool
        ensures some { IsTrue result
            → (z : ℕ) × IsTrue (kept operation (has self.now z) (has o.now z)) }
        ensures none { result ≡ false
            → (z : ℕ) → kept operation (has self.now z) (has o.now z) ≡ false }
    {
        let mut sweep = Sweep::new(self.as_runs(), o.as_runs());
        while let Some(piece) = sweep.next_piece() {
            if operation.keeps(piece.in_left, piece.in_right) {
                return true;
            }
        }
        false
    }

    /// Whether the set holds a point.
    pub fn has(&self, point: u32) -> bool
        ensures { result ≡ has self.now point }
    {
        let runs = self.as_runs();
        let place = first_run_to(runs, point);
        place < runs.len() && runs[place].first <= point
    }

    /// How many points the set has.
    pub fn len(&self) -> u32
        ensures value { result ≡ length self.now }
        ensures points { IsPoints POINT_LIMIT self.now }
    {
        let runs = self.as_runs();
        let count = runs.len();
        if count == 0 { 0 } else { runs[count - 1].total }
    }

    /// How many runs there are.
    pub fn count(&self) -> usize
        ensures { result ≡ runs_of self.now }
    {
        self.as_runs().len()
    }

    /// How many words a plane of the points takes.
    pub fn words(&self) -> usize
        ensures { AreWordsOf self.now result }
    {
        let runs = self.as_runs();
        let count = runs.len();
        if count == 0 {
            return 0;
        }
        let (first, last) = ends_of(runs);
        (last / 64 + 1 - first / 64) as usize
    }

    /// The plane of the points.
    pub fn as_plane(&self) -> Result<Plane, AllocError>
        ensures { IfOk result (λ r. plane_points r ≡ self.now) }
    {
        let runs = self.as_runs();
        let (first, last) = ends_of(runs);
        let mut builder = PlaneBuilder::new(*self.runs.allocator(), first, last)?;
        for run in runs {
            builder.set_range(run.first, run.last + 1);
        }
        builder.finish()
    }

    /// The set of the points of a plane.
    pub fn of_plane(alloc: Global, plane: &Plane) -> Result<RunSet, AllocError>
        ensures value { IfOk result (λ r. r ≡ plane_points plane.now) }
        ensures points { IfOk result (IsPoints POINT_LIMIT) }
    {
        let _below_the_limit = plane.len();
        let mut out = RunSet::empty(alloc)?;
        let mut point = 0;
        while let Some(stretch) = plane.stretch_from(point) {
            out.push_run(stretch.start, stretch.end)?;
            point = stretch.end;
        }
        Ok(out)
    }

    /// The point at a place of the rising list.
    pub fn at(&self, place: u32) -> Option<u32>
        ensures value { result ≡ slice_get self.now place }
        ensures none { (result ≡ None) ↔ (length self.now ≤ place) }
    {
        let runs = self.as_runs();
        let run_place = first_run_with_more(runs, place);
        if run_place == runs.len() {
            return None;
        }
        let run = runs[run_place];
        Some(run.last + 1 - (run.total - place))
    }

    /// The place of a point in the rising list.
    pub fn place_of(&self, point: u32) -> Option<u32>
        ensures value { result ≡ position (λ x. x == point) self.now }
        ensures found { IfSome result (λ place. slice_get self.now place ≡ Some point) }
        ensures none { (result ≡ None) ↔ ¬ Contains self.now point }
    {
        let runs = self.as_runs();
        let run_place = first_run_to(runs, point);
        if run_place == runs.len() {
            return None;
        }
        let run = runs[run_place];
        if point < run.first {
            return None;
        }
        Some(run.total - (run.last + 1 - point))
    }

    /// The first stretch of points without a gap that stands at a point or behind it: from its
    /// start to below its end. Of a stretch that begins before the point it is what is left.
    pub fn stretch_from(&self, point: u32) -> Option<Range<u32>>
        ensures stretch { IfSome result (λ r. IsStretchFrom self.now point r.start r.end) }
        ensures limit { IfSome result (λ r. r.end ≤ POINT_LIMIT) }
        ensures none { result ≡ None → (z : ℕ) → point ≤ z → has self.now z ≡ false }
    {
        let runs = self.as_runs();
        let place = first_run_to(runs, point);
        if place == runs.len() {
            return None;
        }
        let run = runs[place];
        Some(run.first.max(point)..run.last + 1)
    }

    /// The runs, with what they are known to be.
    fn as_runs(&self) -> &[Run]
        ensures runs { AreRuns result.now }
        ensures points { points_in result.now ≡ self.now }
        ensures set { IsPoints POINT_LIMIT self.now }
    {
        self.runs.as_slice()
    }

    /// Adds the points from the first to below the end, which are above all that are there.
    fn push_run(&mut self, first: u32, end: u32) -> Result<(), AllocError>
        requires order { first < end }
        requires below { end ≤ POINT_LIMIT }
        requires above { All (λ x. x < first) self.old }
        ensures ok { OnOk result (self.new ≡ self.old ++ counted_from first (end - first)) }
        ensures points { IsPoints POINT_LIMIT self.new }
    {
        if ends_before(self.runs.as_slice(), first) {
            let place = self.runs.len() - 1;
            let run = &mut self.runs[place];
            run.last = end - 1;
            run.total += end - first;
        } else {
            let total = self.len() + (end - first);
            self.runs.push(Run {
                first,
                last: end - 1,
                total,
            })?;
        }
        Ok(())
    }
}
