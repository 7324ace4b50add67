//! One field of a root.

ghost use Rattle.std.specs.Prelude.{◌≡◌, ◌≤◌, ◌<◌, ◌+◌, IfOk, IsOk, OnErr, OnOk, filter, get_or, length, not, pos, ℕ};
ghost use Rattle.logical_map.specs.Fills.{number_for};
ghost use Rattle.logical_map.specs.Gives.{is_reduction, is_write, with_pieces};
ghost use Rattle.logical_map.specs.Maps.{new_column, number_in_column, zero_of};

use crate::folding::{count_reductions, take_reductions};
use crate::instances::Instances;
use lane_kernels::{FieldKind, Mode};
use plain_values::Shared;
use point_sets::PointSet;
use reduction_folds::Pending;
use region_tree::Piece;
use std::alloc::{AllocError, Global};
use std::marker::Model;

/// The numbers of a field beside the points of its root, in instances, and the reductions that wait to be folded
/// into them.
#[derive(Drop)]
pub(crate) struct FieldInstances {
    kind: FieldKind,
    instances: Instances,
    pending: Pending,
}

impl Model for FieldInstances {
    ghost use Rattle.lane_kernels.specs.Numbers.{width_of};
    ghost use Rattle.physical_instances.specs.Kept.{FieldContents};
    ghost use Rattle.reduction_folds.specs.Folds.{all_beside};

    ghost Value = { FieldContents };

    ghost view = { λ f. record {
      column = record {
        points = f.instances.points;
        kind = f.kind;
        numbers = all_beside (width_of f.kind) f.pending.folds f.instances.points f.instances.numbers;
      };
      spare = f.pending.spare;
    } };
}

impl FieldInstances {
    /// The zero of its kind at each point.
    pub(crate) fn new(
        alloc: Global,
        points: Shared<PointSet>,
        kind: FieldKind,
    ) -> Result<FieldInstances, AllocError>
        ensures { IfOk result (λ f. f.column ≡ new_column points kind) }
    {
        Ok(FieldInstances {
            kind,
            instances: Instances::new(alloc, points, zero_of(kind))?,
            pending: Pending::new(alloc)?,
        })
    }

    pub(crate) fn kind(&self) -> FieldKind
        ensures { result ≡ self.now.column.kind }
    {
        self.kind
    }

    /// How many points the root has.
    pub(crate) fn count(&self) -> usize
        ensures { result ≡ length self.now.column.points }
    {
        self.instances.count()
    }

    /// The number at a point, or 0.
    pub(crate) fn number(&self, point: u32) -> i64
        ensures { result ≡ number_in_column self.now.column point }
    {
        match self.instances.number(point) {
            Some(number) => self.pending.fold_at(self.kind.width(), point, number),
            None => 0,
        }
    }

    /// The numbers from a point on that stand behind one another, at most so many; none where the root lacks the point
    /// or reductions wait.
    pub(crate) fn run_from(&self, point: u32, most: usize) -> &[i64]
        ensures most { length result.now ≤ most }
        ensures numbers { (k : ℕ) → k < length result.now
            → number_in_column self.now.column (point + k) ≡ get_or result.now k (pos 0) }
    {
        if self.pending.is_empty() {
            self.instances.run_from(point, most)
        } else {
            &[]
        }
    }

    /// The numbers beside all points.
    pub(crate) fn image(&self, into: &mut [i64])
        requires { length into.old ≡ length self.now.column.points }
        ensures { into.new ≡ self.now.column.numbers }
    {
        self.instances.image(into);
        self.pending
            .fold_into(self.kind.width(), self.instances.points(), into);
    }

    /// What an element gets at a point that is filled in a mode.
    pub(crate) fn number_for(&self, mode: Mode, point: u32) -> i64
        ensures { result ≡ number_for self.now.column mode point }
    {
        match mode {
            Mode::Reduce(op) => op.identity(self.kind.width()),
            _ => self.number(point),
        }
    }

    /// Folds the reductions in that wait. It takes no memory.
    pub(crate) fn settle(&mut self)
        ensures column { self.new.column ≡ self.old.column }
        ensures spare { self.old.spare ≤ self.new.spare }
    {
        self.instances.settle(self.kind.width(), &mut self.pending);
    }

    /// Takes the pieces for writing in. It takes no memory.
    pub(crate) fn put_back(&mut self, pieces: Vec<Piece>)
        ensures column { self.new.column ≡ with_pieces (filter is_write pieces.items) self.old.column }
        ensures spare { self.old.spare ≤ self.new.spare }
    {
        self.instances.settle(self.kind.width(), &mut self.pending);
        self.instances.put_back(pieces);
    }

    /// Takes the reductions in and out of the pieces; they wait to be folded. With room for them it isn't refused.
    pub(crate) fn add_reductions(&mut self, pieces: &mut Vec<Piece>) -> Result<(), AllocError>
        ensures column { OnOk result (self.new.column ≡ with_pieces (filter is_reduction pieces.old.items) self.old.column) }
        ensures pieces { OnOk result (pieces.new.items ≡ filter (λ h. not (is_reduction h)) pieces.old.items) }
        ensures err { OnErr result ((self.new ≡ self.old) × (pieces.new.items ≡ pieces.old.items)) }
        ensures sure { length (filter is_reduction pieces.old.items) ≤ self.old.spare → IsOk result }
        ensures spare { self.old.spare ≤ self.new.spare + length (filter is_reduction pieces.old.items) }
    {
        self.reserve(count_reductions(pieces.as_slice()))?;
        take_reductions(pieces, &mut self.pending);
        Ok(())
    }

    /// Makes room for so many reductions more. More than 2^32 of them count as a want of memory.
    pub(crate) fn reserve(&mut self, more: usize) -> Result<(), AllocError>
        ensures column { self.new.column ≡ self.old.column }
        ensures spare { self.old.spare ≤ self.new.spare }
        ensures more { OnOk result (more ≤ self.new.spare) }
        ensures err { OnErr result (self.new ≡ self.old) }
        ensures sure { more ≤ self.old.spare → IsOk result }
    {
        if self.pending.room() < more {
            let Ok(more) = u32::try_from(more) else {
                return Err(AllocError);
            };
            self.pending.reserve(more)?;
        }
        Ok(())
    }
}

/// The number that a new field holds.
fn zero_of(kind: FieldKind) -> i64
    ensures { result ≡ zero_of kind }
{
    match kind {
        FieldKind::Pointer => -1,
        _ => 0,
    }
}
