//! Sets of points.

ghost use Rattle.std.specs.Prelude.{◌≡◌, ◌↔◌, ◌-◌, ◌≤◌, ◌==◌, ℕ, [], Contains};
ghost use Rattle.std.specs.Prelude.{IfOk, IfSome, IsTrue, false, length, position, slice_get};
ghost use Rattle.plain_values.specs.Points.{IsPoints, counted_from, has, meets, within};
ghost use Rattle.plain_values.specs.Points.{meet_of, minus_of, union_of};
ghost use Rattle.point_sets.specs.Forms.{IsFewest, points_of, runs_of};
ghost use Rattle.point_sets.specs.Laws.{HasTells, MembersDecide, MeetsIsShared, WithinIsEach};
ghost use Rattle.point_sets.specs.Laws.{MeetIsBoth, MinusIsRest, UnionIsEither};
ghost use Rattle.point_sets.specs.Operations.{combined_of, kept};
ghost use Rattle.point_sets.specs.Stretches.{IsStretchFrom};

use crate::POINT_LIMIT;
use crate::form::Form;
use crate::operation::Operation;
use crate::run_set::RunSet;
use std::alloc::{AllocError, Global};
use std::marker::Model;
use std::ops::Range;

/// A set of points, which contracts see as the rising list of them.
#[derive(Debug, Drop)]
pub struct PointSet {
    alloc: Global,
    form: Form,
}

impl Model for PointSet {
    ghost use Rattle.std.specs.Prelude.{List, ℕ};
    ghost use Rattle.point_sets.specs.Forms.{IsSettled, points_of};

    ghost Value = { List ℕ };

    ghost view = { λ a. points_of a.form };

    ghost invariant = { λ a. IsSettled a.form };
}

impl PointSet {
    ghost use Rattle.point_sets.specs.Forms.{IsSettled};

    /// The set of no points.
    pub fn empty(alloc: Global) -> Result<PointSet, AllocError>
        ensures value { IfOk result (λ r. r ≡ []) }
        ensures points { IfOk result (IsPoints POINT_LIMIT) }
    {
        let form = Form::of_runs(RunSet::empty(alloc)?)?;
        Ok(PointSet::of_form(alloc, form))
    }

    /// The points from `a` to below `b`: none where `b` is at most `a`.
    pub fn range(alloc: Global, a: u32, b: u32) -> Result<PointSet, AllocError>
        requires { b ≤ POINT_LIMIT }
        ensures value { IfOk result (λ r. r ≡ counted_from a (b - a)) }
        ensures points { IfOk result (IsPoints POINT_LIMIT) }
    {
        let form = Form::of_runs(RunSet::range(alloc, a, b)?)?;
        Ok(PointSet::of_form(alloc, form))
    }

    /// The set of the points of a rising list.
    pub fn from_sorted(alloc: Global, points: &[u32]) -> Result<PointSet, AllocError>
        requires { IsPoints POINT_LIMIT points.now }
        ensures value { IfOk result (λ r. r ≡ points.now) }
    {
        let form = Form::of_runs(RunSet::from_sorted(alloc, points)?)?;
        Ok(PointSet::of_form(alloc, form))
    }

    /// The points of either set.
    pub fn union(&self, o: &PointSet) -> Result<PointSet, AllocError>
        ensures value { IfOk result (λ r. r ≡ union_of self.now o.now) }
        ensures points { IfOk result (IsPoints POINT_LIMIT) }
        ensures either { UnionIsEither }
    {
        self.combined(o, Operation::Union)
    }

    /// The points of both sets.
    pub fn meet(&self, o: &PointSet) -> Result<PointSet, AllocError>
        ensures value { IfOk result (λ r. r ≡ meet_of self.now o.now) }
        ensures points { IfOk result (IsPoints POINT_LIMIT) }
        ensures both { MeetIsBoth }
    {
        self.combined(o, Operation::Meet)
    }

    /// The points of this set that the other lacks.
    pub fn minus(&self, o: &PointSet) -> Result<PointSet, AllocError>
        ensures value { IfOk result (λ r. r ≡ minus_of self.now o.now) }
        ensures points { IfOk result (IsPoints POINT_LIMIT) }
        ensures rest { MinusIsRest }
    {
        self.combined(o, Operation::Minus)
    }

    /// The same set once more.
    pub fn copy(&self) -> Result<PointSet, AllocError>
        ensures value { IfOk result (λ r. r ≡ self.now) }
        ensures points { IfOk result (IsPoints POINT_LIMIT) }
    {
        let form = self.as_form().copy()?;
        Ok(PointSet::of_form(self.alloc, form))
    }

    /// Whether the two sets share a point.
    pub fn meets(&self, o: &PointSet) -> bool
        ensures value { result ≡ meets self.now o.now }
        ensures shared { MeetsIsShared }
    {
        match (self.as_form(), o.as_form()) {
            (Form::Runs(left), Form::Runs(right)) => left.any_kept(right, Operation::Meet),
            (Form::Plane(left), Form::Plane(right)) => left.meets(right),
            _ => self.shares_a_stretch(o),
        }
    }

    /// Whether the other set holds every point of this one.
    pub fn within(&self, o: &PointSet) -> bool
        ensures value { result ≡ within self.now o.now }
        ensures each { WithinIsEach }
    {
        match (self.as_form(), o.as_form()) {
            (Form::Runs(left), Form::Runs(right)) => !left.any_kept(right, Operation::Minus),
            (Form::Plane(left), Form::Plane(right)) => left.within(right),
            _ => self.has_its_stretches_in(o),
        }
    }

    /// Whether the set holds a point. Sets that hold the same points are the same list.
    pub fn has(&self, point: u32) -> bool
        ensures value { result ≡ has self.now point }
        ensures tells { HasTells }
        ensures decided { MembersDecide }
    {
        match self.as_form() {
            Form::Runs(runs) => runs.has(point),
            Form::Plane(plane) => plane.has(point),
        }
    }

    /// How many points the set has.
    pub fn len(&self) -> u32
        ensures value { result ≡ length self.now }
        ensures points { IsPoints POINT_LIMIT self.now }
    {
        match self.as_form() {
            Form::Runs(runs) => runs.len(),
            Form::Plane(plane) => plane.len(),
        }
    }

    /// The point at a place of the rising list.
    pub fn at(&self, place: u32) -> Option<u32>
        ensures value { result ≡ slice_get self.now place }
        ensures none { (result ≡ None) ↔ (length self.now ≤ place) }
    {
        match self.as_form() {
            Form::Runs(runs) => runs.at(place),
            Form::Plane(plane) => plane.at(place),
        }
    }

    /// The place of a point in the rising list.
    pub fn place_of(&self, point: u32) -> Option<u32>
        ensures value { result ≡ position (λ x. x == point) self.now }
        ensures found { IfSome result (λ place. slice_get self.now place ≡ Some point) }
        ensures none { (result ≡ None) ↔ ¬ Contains self.now point }
    {
        match self.as_form() {
            Form::Runs(runs) => runs.place_of(point),
            Form::Plane(plane) => plane.place_of(point),
        }
    }

    /// The first stretch of points without a gap that stands at a point or behind it: from its
    /// start to below its end. Of a stretch that begins before the point it is what is left.
    pub fn stretch_from(&self, point: u32) -> Option<Range<u32>>
        ensures stretch { IfSome result (λ r. IsStretchFrom self.now point r.start r.end) }
        ensures limit { IfSome result (λ r. r.end ≤ POINT_LIMIT) }
        ensures none { result ≡ None → (z : ℕ) → point ≤ z → has self.now z ≡ false }
    {
        match self.as_form() {
            Form::Runs(runs) => runs.stretch_from(point),
            Form::Plane(plane) => plane.stretch_from(point),
        }
    }

    /// How many words the set takes, a run counted as one.
    pub fn words(&self) -> usize
        ensures fewest { IsFewest self.now result }
        ensures at_most { result ≤ runs_of self.now }
    {
        match self.as_form() {
            Form::Runs(runs) => runs.count(),
            Form::Plane(plane) => plane.words(),
        }
    }

    /// The form, with what it is known to be.
    fn as_form(&self) -> &Form
        ensures settled { IsSettled result.now }
        ensures points { points_of result.now ≡ self.now }
    {
        &self.form
    }

    /// The set of a form.
    fn of_form(alloc: Global, form: Form) -> PointSet
        requires { IsSettled form }
        ensures value { result ≡ points_of form }
        ensures points { IsPoints POINT_LIMIT result }
    {
        PointSet { alloc, form }
    }

    /// What an operation makes of two sets.
    fn combined(&self, o: &PointSet, operation: Operation) -> Result<PointSet, AllocError>
        ensures value { IfOk result (λ r. r ≡ combined_of operation self.now o.now) }
        ensures points { IfOk result (IsPoints POINT_LIMIT) }
    {
        let form = self.as_form().combined(self.alloc, o.as_form(), operation)?;
        Ok(PointSet::of_form(self.alloc, form))
    }

    /// Whether a stretch of this set has a point of the other.
    fn shares_a_stretch(&self, o: &PointSet) -> bool
        ensures { result ≡ meets self.now o.now }
    {
        let mut point = 0;
        while let Some(ours) = self.stretch_from(point) {
            let Some(theirs) = o.stretch_from(ours.start) else {
                return false;
            };
            if theirs.start < ours.end {
                return true;
            }
            point = ours.end;
        }
        false
    }

    /// Whether each stretch of this set lies in one of the other.
    fn has_its_stretches_in(&self, o: &PointSet) -> bool
        ensures { result ≡ within self.now o.now }
    {
        let mut point = 0;
        while let Some(ours) = self.stretch_from(point) {
            let Some(theirs) = o.stretch_from(ours.start) else {
                return false;
            };
            if ours.start < theirs.start {
                return false;
            }
            if theirs.end < ours.end {
                return false;
            }
            point = ours.end;
        }
        true
    }
}
