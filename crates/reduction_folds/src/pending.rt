//! All reductions that wait to be folded.

ghost use Rattle.std.specs.Prelude.{◌≡◌, ◌≤◌, ◌<◌, ◌+◌, ◌++◌, ◌∷◌, ◌↔◌, [], IsOk, IsOkAnd, OnErr, OnOk, length, true};
ghost use Rattle.reduction_folds.specs.Folds.{all_at, all_beside};

use crate::fold::{Fold, number_at};
use lane_kernels::{Op, Width};
use plain_values::Sequence;
use point_sets::PointSet;
use std::alloc::{AllocError, Global};
use std::marker::Model;

/// Reductions on one field of a root that wait to be folded, seen as their list in the order of adding, and
/// as how many more may be added for sure.
#[derive(Debug, Drop)]
pub struct Pending {
    folds: Vec<Fold>,
}

impl Model for Pending {
    ghost use Rattle.std.specs.Prelude.{◌-◌};
    ghost use Rattle.std.specs.Vec.{vec_capacity, vec_len};
    ghost use Rattle.reduction_folds.specs.Waiting.{Waiting};

    ghost Value = { Waiting };

    ghost view = { λ p. record { folds = p.folds.items; spare = vec_capacity p.folds - vec_len p.folds } };
}

impl Pending {
    /// None that waits; it takes no memory.
    pub fn new(alloc: Global) -> Result<Pending, AllocError>
        ensures { IsOkAnd result (λ pending. pending.folds ≡ []) }
    {
        Ok(Pending {
            folds: Vec::new(alloc),
        })
    }

    /// One more, with one value for each point. A refusal drops it.
    pub fn add(&mut self, op: Op, points: PointSet, values: Vec<i64>) -> Result<(), AllocError>
        ensures ok { OnOk result (self.new.folds
            ≡ self.old.folds ++ record { op = op; points = points; values = values.items } ∷ []) }
        ensures err { OnErr result (self.new.folds ≡ self.old.folds) }
        ensures sure { 0 < self.old.spare → IsOk result }
        ensures spare { self.old.spare ≤ self.new.spare + 1 }
        ensures kept { OnErr result (self.old.spare ≤ self.new.spare) }
    {
        let values = Sequence::from_vec(values);
        self.folds.push(Fold { op, points, values })?;
        Ok(())
    }

    /// Whether nothing waits.
    pub fn is_empty(&self) -> bool
        ensures { (result ≡ true) ↔ (self.now.folds ≡ []) }
    {
        self.folds.is_empty()
    }

    /// How many more may be added for sure.
    pub fn room(&self) -> usize
        ensures { result ≡ self.now.spare }
    {
        self.folds.capacity() - self.folds.len()
    }

    /// Makes room for so many more.
    pub fn reserve(&mut self, more: u32) -> Result<(), AllocError>
        ensures folds { self.new.folds ≡ self.old.folds }
        ensures ok { OnOk result (more ≤ self.new.spare) }
        ensures err { OnErr result (self.new ≡ self.old) }
        ensures sure { more ≤ self.old.spare → IsOk result }
        ensures spare { self.old.spare ≤ self.new.spare }
    {
        self.folds.reserve(more as usize)
    }

    /// What all that waits makes of the number at a point. It takes no memory.
    pub fn fold_at(&self, width: Width, point: u32, value: i64) -> i64
        ensures { result ≡ all_at width self.now.folds point value }
    {
        let mut number = value;
        for fold in &self.folds {
            number = fold.at(width, point, number);
        }
        number
    }

    /// Folds all that waits into the numbers beside some points, in the order of adding. It takes no memory.
    pub fn fold_into(&self, width: Width, points: &PointSet, values: &mut [i64])
        requires { length values.old ≡ length points.now }
        ensures { values.new ≡ all_beside width self.now.folds points.now values.old }
    {
        for place in 0..points.len() {
            let (Some(point), Some(value)) = (points.at(place), number_at(values, place)) else {
                return;
            };
            values[place as usize] = self.fold_at(width, point, value);
        }
    }

    /// Folds all that waits into the numbers beside some points, and then nothing waits. It takes no memory.
    pub fn settle(&mut self, width: Width, points: &PointSet, values: &mut [i64])
        requires { length values.old ≡ length points.now }
        ensures values { values.new ≡ all_beside width self.old.folds points.now values.old }
        ensures folds { self.new.folds ≡ [] }
        ensures spare { self.old.spare ≤ self.new.spare }
    {
        self.fold_into(width, points, values);
        self.folds.clear();
    }
}
