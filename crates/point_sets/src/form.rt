//! The two forms of a set of points.

ghost use Rattle.std.specs.Prelude.{◌≡◌, ℕ, IfOk};
ghost use Rattle.bit_planes.specs.Planes.{has_point};
ghost use Rattle.point_sets.specs.Forms.{IsSettled, plane_points, points_of};
ghost use Rattle.point_sets.specs.Operations.{combined_of, kept};

use crate::operation::Operation;
use crate::run_set::RunSet;
use bit_planes::Plane;
use std::alloc::{AllocError, Global};

/// What a set is kept as: its runs, or the words from its first point's to its last point's.
#[derive(Debug, Drop)]
pub enum Form {
    Runs(RunSet),
    Plane(Plane),
}

impl Form {
    /// The form of fewer words for the points of runs.
    pub fn of_runs(runs: RunSet) -> Result<Form, AllocError>
        ensures points { IfOk result (λ r. points_of r ≡ runs) }
        ensures settled { IfOk result IsSettled }
    {
        let _below_the_limit = runs.len();
        if runs.count() <= runs.words() {
            return Ok(Form::Runs(runs));
        }
        let plane = runs.as_plane()?;
        let _below_the_limit = plane.len();
        Ok(Form::Plane(plane))
    }

    /// The form of fewer words for the points of a plane.
    pub fn of_plane(alloc: Global, plane: Plane) -> Result<Form, AllocError>
        ensures points { IfOk result (λ r. points_of r ≡ plane_points plane) }
        ensures settled { IfOk result IsSettled }
    {
        let _below_the_limit = plane.len();
        if plane.words() < plane.stretches() as usize {
            return Ok(Form::Plane(plane));
        }
        let runs = RunSet::of_plane(alloc, &plane)?;
        Ok(Form::Runs(runs))
    }

    /// The same form once more.
    pub fn copy(&self) -> Result<Form, AllocError>
        ensures { IfOk result (λ r. r ≡ self.now) }
    {
        match self {
            Form::Runs(runs) => Ok(Form::Runs(runs.copy()?)),
            Form::Plane(plane) => Ok(Form::Plane(plane.copy()?)),
        }
    }

    /// What an operation makes of two sets.
    pub fn combined(
        &self,
        alloc: Global,
        o: &Form,
        operation: Operation,
    ) -> Result<Form, AllocError>
        ensures points { IfOk result (λ r. points_of r
            ≡ combined_of operation (points_of self.now) (points_of o.now)) }
        ensures settled { IfOk result IsSettled }
    {
        match (self, o) {
            (Form::Runs(left), Form::Runs(right)) => by_runs(left, right, operation),
            (Form::Plane(left), Form::Plane(right)) => by_planes(alloc, left, right, operation),
            (Form::Runs(left), Form::Plane(right)) => {
                runs_with_plane(alloc, left, right, operation)
            }
            (Form::Plane(left), Form::Runs(right)) => {
                plane_with_runs(alloc, left, right, operation)
            }
        }
    }
}

/// What an operation makes of the runs of two sets.
fn by_runs(left: &RunSet, right: &RunSet, operation: Operation) -> Result<Form, AllocError>
    ensures points { IfOk result (λ r. points_of r ≡ combined_of operation left.now right.now) }
    ensures settled { IfOk result IsSettled }
{
    Form::of_runs(left.combined(right, operation)?)
}

/// What an operation makes of the planes of two sets.
fn by_planes(
    alloc: Global,
    left: &Plane,
    right: &Plane,
    operation: Operation,
) -> Result<Form, AllocError>
    ensures points { IfOk result (λ r. points_of r
        ≡ combined_of operation (plane_points left.now) (plane_points right.now)) }
    ensures settled { IfOk result IsSettled }
{
    Form::of_plane(alloc, joined(left, right, operation)?)
}

/// The plane that an operation makes of two.
fn joined(left: &Plane, right: &Plane, operation: Operation) -> Result<Plane, AllocError>
    ensures { IfOk result (λ r. (z : ℕ) → has_point r z
        ≡ kept operation (has_point left.now z) (has_point right.now z)) }
{
    match operation {
        Operation::Union => left.union(right),
        Operation::Meet => left.meet(right),
        Operation::Minus => left.minus(right),
    }
}

/// What an operation makes of the runs of one set and the plane of another.
fn runs_with_plane(
    alloc: Global,
    left: &RunSet,
    right: &Plane,
    operation: Operation,
) -> Result<Form, AllocError>
    ensures points { IfOk result (λ r. points_of r
        ≡ combined_of operation left.now (plane_points right.now)) }
    ensures settled { IfOk result IsSettled }
{
    if fits_a_plane(left, right) {
        by_planes(alloc, &left.as_plane()?, right, operation)
    } else {
        by_runs(left, &RunSet::of_plane(alloc, right)?, operation)
    }
}

/// What an operation makes of the plane of one set and the runs of another.
fn plane_with_runs(
    alloc: Global,
    left: &Plane,
    right: &RunSet,
    operation: Operation,
) -> Result<Form, AllocError>
    ensures points { IfOk result (λ r. points_of r
        ≡ combined_of operation (plane_points left.now) right.now) }
    ensures settled { IfOk result IsSettled }
{
    if fits_a_plane(right, left) {
        by_planes(alloc, left, &right.as_plane()?, operation)
    } else {
        by_runs(&RunSet::of_plane(alloc, left)?, right, operation)
    }
}

/// Whether the words that reach over two sets are at most their runs, so that planes are the quicker way.
fn fits_a_plane(runs: &RunSet, plane: &Plane) -> bool {
    let runs_last = runs.at(runs.len().saturating_sub(1)).unwrap_or(0);
    let plane_last = plane.at(plane.len().saturating_sub(1)).unwrap_or(0);
    let first = runs.at(0).unwrap_or(0).min(plane.at(0).unwrap_or(0));
    let words = (runs_last.max(plane_last) / 64 + 1).saturating_sub(first / 64);
    words as usize <= runs.count().saturating_add(plane.stretches() as usize)
}
