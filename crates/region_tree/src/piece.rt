//! Parts of a field that were copied out for a task.

use crate::tree::RootId;
use lane_kernels::{FieldKind, Mode};
use plain_values::Sequence;
use point_sets::PointSet;
use std::marker::Model;

/// Points of a field in one mode, with a value for each.
#[derive(Debug, Drop)]
pub struct Piece {
    pub points: PointSet,
    pub mode: Mode,
    pub values: Sequence<i64>,
}

impl Model for Piece {
    ghost use Rattle.std.specs.Prelude.{◌≡◌, length};
    ghost use Rattle.region_tree.specs.Pieces.{Held};

    ghost Value = { Held };

    ghost view = { λ p. record { points = p.points; mode = p.mode; values = p.values } };

    ghost invariant = { λ p. length p.points ≡ length p.values };
}

/// The pieces of a field of a root.
#[derive(Debug, Drop)]
pub struct Part {
    pub root: RootId,
    pub field: u8,
    pub kind: FieldKind,
    pub pieces: Sequence<Piece>,
}

impl Piece {
    ghost use Rattle.std.specs.Prelude.{◌≡◌, ◌<◌, length, slice_set};

    /// How many points the piece has, and how many values.
    pub fn len(&self) -> usize
        ensures points { result ≡ length self.now.points }
        ensures values { result ≡ length self.now.values }
    {
        self.values.len()
    }

    /// Gives the point at a place another value; it takes no memory.
    pub fn set(&mut self, place: usize, value: i64)
        requires { place < length self.old.values }
        ensures points { self.new.points ≡ self.old.points }
        ensures mode { self.new.mode ≡ self.old.mode }
        ensures values { self.new.values ≡ slice_set self.old.values place value }
    {
        self.values.set(place, value);
    }
}
