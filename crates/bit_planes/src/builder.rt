//! Planes under construction.

ghost use Rattle.std.specs.Prelude.{◌≡◌, ◌+◌, ◌*◌, ◌<◌, ◌≤◌, ◌&&◌, ◌||◌, ℕ, nat_le, nat_lt, IfOk};
ghost use Rattle.bit_planes.specs.Planes.{Building, has_point};

use crate::WORD_LIMIT;
use crate::plane::Plane;
use crate::windows::set_ones;
use std::alloc::{AllocError, Global};
use std::marker::Model;

/// A plane under construction, of points between two bounds.
#[derive(Debug, Drop)]
pub struct PlaneBuilder {
    first: usize,
    words: Vec<u64>,
}

impl Model for PlaneBuilder {
    ghost use Rattle.std.specs.Prelude.{◌+◌, ◌*◌, ◌≤◌, length};
    ghost use Rattle.bit_planes.specs.Planes.{Building};
    ghost use Rattle.bit_planes.specs.Words.{placed};
    ghost use Rattle.bit_planes.specs.declared.TheConstants.{WORD_LIMIT};

    ghost Value = { Building };

    ghost view = { λ a. record {
      low = 64 * a.first;
      high = 64 * (a.first + length a.words.items);
      set = placed a.first a.words.items;
    } };

    ghost invariant = { λ a. a.first + length a.words.items ≤ WORD_LIMIT };
}

impl PlaneBuilder {
    /// No points, with room for a first one, a last one and all between.
    pub fn new(alloc: Global, first: u32, last: u32) -> Result<PlaneBuilder, AllocError>
        requires order { first ≤ last }
        requires below { last < 64 * WORD_LIMIT }
        ensures low { IfOk result (λ r. r.low ≤ first) }
        ensures high { IfOk result (λ r. last < r.high) }
        ensures none { IfOk result (λ r. r.set ≡ 0) }
    {
        let from = first as usize / 64;
        let words = vec![in alloc; 0; last as usize / 64 + 1 - from]?;
        Ok(PlaneBuilder { first: from, words })
    }

    /// Adds the points from one to below another.
    pub fn set_range(&mut self, start: u32, end: u32)
        requires order { start ≤ end }
        requires low { self.old.low ≤ start }
        requires high { end ≤ self.old.high }
        ensures low { self.new.low ≡ self.old.low }
        ensures high { self.new.high ≡ self.old.high }
        ensures set { (z : ℕ) → has_point self.new.set z
            ≡ (has_point self.old.set z || (nat_le start z && nat_lt z end)) }
    {
        let base = 64 * self.first;
        set_ones(
            self.words.as_mut_slice(),
            start as usize - base,
            end as usize - base,
        );
    }

    /// The plane of the points that were added.
    pub fn finish(self) -> Result<Plane, AllocError>
        ensures { IfOk result (λ r. r ≡ self.set) }
    {
        let PlaneBuilder { first, words } = self;
        Plane::from_words(first, words)
    }
}
