//! A sweep over the points of two sets.

ghost use Rattle.std.specs.Prelude.{◌≡◌, ◌<◌, ◌≤◌, IfNone, IfSome};
ghost use Rattle.point_sets.specs.Runs.{AreRuns, points_in};
ghost use Rattle.point_sets.specs.Sweeps.{AllOrNone};

use crate::POINT_LIMIT;
use crate::runs::{Run, place_ahead, stretch_at};
use std::marker::Model;

/// The points from the first to below the end, over which neither set changes.
#[derive(Clone, Copy, Debug)]
pub struct Piece {
    pub first: u32,
    pub end: u32,
    pub in_left: bool,
    pub in_right: bool,
}

/// Goes over all points once, piece by piece, at both sets together.
#[derive(Drop)]
pub struct Sweep<'a> {
    left: &'a [Run],
    right: &'a [Run],
    left_place: usize,
    right_place: usize,
    point: u32,
}

impl<'a> Model for Sweep<'a> {
    ghost use Rattle.std.specs.Prelude.{◌≤◌};
    ghost use Rattle.point_sets.specs.Runs.{AreRuns, IsFirstTo, points_in};
    ghost use Rattle.point_sets.specs.Sweeps.{Sweeping};
    ghost use Rattle.point_sets.specs.declared.TheConstants.{POINT_LIMIT};

    ghost Value = { Sweeping };

    ghost view = { λ s. record {
      left = points_in s.left.now;
      right = points_in s.right.now;
      point = s.point;
    } };

    ghost invariant = { λ s. AreRuns s.left.now
        × AreRuns s.right.now
        × IsFirstTo s.left.now s.left_place s.point
        × IsFirstTo s.right.now s.right_place s.point
        × (s.point ≤ POINT_LIMIT) };
}

impl<'a> Sweep<'a> {
    pub fn new(left: &'a [Run], right: &'a [Run]) -> Self
        requires left_runs { AreRuns left.now }
        requires right_runs { AreRuns right.now }
        ensures left { result.left ≡ points_in left.now }
        ensures right { result.right ≡ points_in right.now }
        ensures point { result.point ≡ 0 }
    {
        Sweep {
            left,
            right,
            left_place: 0,
            right_place: 0,
            point: 0,
        }
    }

    /// The piece that begins where the sweep stands; the sweep goes to its end.
    pub fn next_piece(&mut self) -> Option<Piece>
        ensures left { self.new.left ≡ self.old.left }
        ensures right { self.new.right ≡ self.old.right }
        ensures none { IfNone result (self.old.point ≡ POINT_LIMIT) }
        ensures first { IfSome result (λ p. p.first ≡ self.old.point) }
        ensures end { IfSome result (λ p. p.end ≡ self.new.point) }
        ensures ahead { IfSome result (λ p. p.first < p.end) }
        ensures below { IfSome result (λ p. p.end ≤ POINT_LIMIT) }
        ensures in_left { IfSome result (λ p. AllOrNone self.old.left p.first p.end p.in_left) }
        ensures in_right { IfSome result (λ p. AllOrNone self.old.right p.first p.end p.in_right) }
    {
        let first = self.point;
        if first == POINT_LIMIT {
            return None;
        }
        let left = stretch_at(self.left, self.left_place, first);
        let right = stretch_at(self.right, self.right_place, first);
        let end = left.end.min(right.end);
        self.left_place = place_ahead(self.left, self.left_place, end);
        self.right_place = place_ahead(self.right, self.right_place, end);
        self.point = end;
        Some(Piece {
            first,
            end,
            in_left: left.inside,
            in_right: right.inside,
        })
    }
}
