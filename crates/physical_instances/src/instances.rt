//! The numbers of a field in instances (physical instances and their valid sets: Legion, SC 2012).

ghost use Rattle.std.specs.Prelude.{◌≡◌, ◌≤◌, ◌<◌, ◌+◌, [], IfNone, IfOk, IfSome, Some, filter, get_or, length, pos, replicate, ℕ};
ghost use Rattle.lane_kernels.specs.declared.numbers.Width.{Width};
ghost use Rattle.logical_map.specs.Gives.{given_beside, is_write};
ghost use Rattle.logical_map.specs.Maps.{number_beside};
ghost use Rattle.physical_instances.specs.Instances.{current, current_beside, trimmed, written};
ghost use Rattle.reduction_folds.specs.Folds.{all_beside};

use crate::current::{clear, current, gather, no_pieces, run_in, same_from, trim, write};
use crate::marks::{free_place, mark};
use lane_kernels::{Mode, Width};
use plain_values::Shared;
use point_sets::PointSet;
use reduction_folds::Pending;
use region_tree::Piece;
use std::alloc::{AllocError, Global};
use std::marker::Model;

/// How many further instances a field has at most.
const FURTHER: usize = 7;

/// A base with a number beside each point of the root, and up to seven further instances, each a piece that came back.
/// `valid` tells which is current beside each point: 0 is the base, and k + 1 the further one at place k; `counts`
/// tells at how many points each is.
#[derive(Drop)]
pub(crate) struct Instances {
    points: Shared<PointSet>,
    base: Vec<i64>,
    valid: Vec<u8>,
    further: Vec<Option<Piece>>,
    counts: Vec<usize>,
}

impl Model for Instances {
    ghost use Rattle.std.specs.Prelude.{◌≡◌, length};
    ghost use Rattle.std.specs.List.Sorted.{IsStrictlyIncreasing};
    ghost use Rattle.physical_instances.specs.Instances.{AreCounts, Beside, current_beside};

    ghost Value = { Beside };

    ghost view = { λ i. record {
      points = i.points;
      numbers = current_beside i.further.items i.points i.valid.items i.base.items;
    } };

    ghost invariant = { λ i. IsStrictlyIncreasing i.points × (length i.base.items ≡ length i.points) × (length i.valid.items ≡ length i.points)
        × AreCounts i.counts.items i.valid.items
        × (length i.counts.items ≡ 8) × (length i.further.items ≡ 7) };
}

impl Instances {
    /// The base alone, with a number beside each point.
    pub(crate) fn new(
        alloc: Global,
        points: Shared<PointSet>,
        number: i64,
    ) -> Result<Instances, AllocError>
        ensures points { IfOk result (λ i. i.points ≡ points) }
        ensures numbers { IfOk result (λ i. i.numbers ≡ replicate (length points) number) }
    {
        let count = points.get().len() as usize;
        let base = vec![in alloc; number; count]?;
        let valid = vec![in alloc; 0_u8; count]?;
        let mut counts = vec![in alloc; 0_usize; FURTHER + 1]?;
        counts[0] = count;
        Ok(Instances {
            points,
            base,
            valid,
            further: no_pieces(alloc, FURTHER)?,
            counts,
        })
    }

    /// How many points the root has.
    pub(crate) fn count(&self) -> usize
        ensures points { result ≡ length self.now.points }
        ensures numbers { result ≡ length self.now.numbers }
    {
        self.base.len()
    }

    /// The number at a point of the root.
    pub(crate) fn number(&self, point: u32) -> Option<i64>
        ensures { result ≡ number_beside self.now.points self.now.numbers point }
    {
        let place = self.points.get().place_of(point)? as usize;
        let further = self.further.as_slice();
        Some(current(further, self.valid[place], point, self.base[place]))
    }

    /// The numbers from a point on that stand behind one another in one instance, at most so many; none where the root
    /// lacks the point.
    pub(crate) fn run_from(&self, point: u32, most: usize) -> &[i64]
        ensures most { length result.now ≤ most }
        ensures numbers { (k : ℕ) → k < length result.now
            → number_beside self.now.points self.now.numbers (point + k) ≡ Some (get_or result.now k (pos 0)) }
    {
        let root = self.points.get();
        let (Some(place), Some(stretch)) = (root.place_of(point), root.stretch_from(point)) else {
            return &[];
        };
        let place = place as usize;
        let left = self.base.len() - place;
        let most = most.min((stretch.end - point) as usize).min(left);
        let count = same_from(self.valid.as_slice(), place, most);
        match self.valid[place] {
            0 => &self.base.as_slice()[place..place + count],
            which => match self.further.get(which as usize - 1) {
                Some(Some(piece)) => run_in(piece, point, count),
                _ => &[],
            },
        }
    }

    /// The points of the root.
    pub(crate) fn points(&self) -> &PointSet
        ensures points { result.now ≡ self.now.points }
    {
        self.points.get()
    }

    /// The numbers beside all points.
    pub(crate) fn image(&self, into: &mut [i64])
        requires { length into.old ≡ length self.now.points }
        ensures { into.new ≡ self.now.numbers }
    {
        into.copy_from_slice(self.base.as_slice());
        gather(
            self.points.get(),
            self.further.as_slice(),
            self.valid.as_slice(),
            into,
        );
    }

    /// A piece comes back: as a further instance where there is room for one, or else into the base. It takes no
    /// memory.
    pub(crate) fn put(&mut self, piece: Piece)
        ensures points { self.new.points ≡ self.old.points }
        ensures numbers { self.new.numbers ≡ written piece self.old.points self.old.numbers }
    {
        if let Some(piece) = self.put_further(piece) {
            self.put_base(&piece);
        }
        self.trim();
    }

    /// The pieces for writing come back one after the other. It takes no memory.
    pub(crate) fn put_back(&mut self, pieces: Vec<Piece>)
        ensures points { self.new.points ≡ self.old.points }
        ensures numbers { (w : Width) → self.new.numbers ≡ given_beside w (filter is_write pieces.items) self.old.points self.old.numbers }
    {
        for piece in pieces {
            if is_write(&piece) {
                self.put(piece);
            }
        }
    }

    /// A piece comes back as a further instance; it is given back where there is no room for one.
    fn put_further(&mut self, piece: Piece) -> Option<Piece>
        ensures points { self.new.points ≡ self.old.points }
        ensures put { IfNone result (self.new.numbers ≡ written piece self.old.points self.old.numbers) }
        ensures back { IfSome result (λ p. (p ≡ piece) × (self.new ≡ self.old)) }
    {
        let Some(place) = free_place(self.counts.as_slice()) else {
            return Some(piece);
        };
        let which = place as u8 + 1;
        mark(
            self.points.get(),
            &piece.points,
            which,
            &mut self.valid,
            &mut self.counts,
        );
        self.further[place] = Some(piece);
        None
    }

    /// A piece comes back into the base.
    fn put_base(&mut self, piece: &Piece)
        ensures points { self.new.points ≡ self.old.points }
        ensures numbers { self.new.numbers ≡ written piece.now self.old.points self.old.numbers }
    {
        let root = self.points.get();
        mark(root, &piece.points, 0, &mut self.valid, &mut self.counts);
        write(root, piece, self.base.as_mut_slice());
    }

    /// Drops the further instances that are current nowhere.
    fn trim(&mut self)
        ensures { self.new ≡ self.old }
    {
        trim(&self.counts.as_slice()[1..], self.further.as_mut_slice());
    }

    /// Folds all that waits in, and then nothing waits. It takes no memory.
    pub(crate) fn settle(&mut self, width: Width, pending: &mut Pending)
        ensures points { self.new.points ≡ self.old.points }
        ensures numbers { self.new.numbers ≡ all_beside width pending.old.folds self.old.points self.old.numbers }
        ensures folds { pending.new.folds ≡ [] }
        ensures spare { pending.old.spare ≤ pending.new.spare }
    {
        if !pending.is_empty() {
            self.fold_in(width, pending);
        }
    }

    /// The same by going through all points.
    fn fold_in(&mut self, width: Width, pending: &mut Pending)
        ensures points { self.new.points ≡ self.old.points }
        ensures numbers { self.new.numbers ≡ all_beside width pending.old.folds self.old.points self.old.numbers }
        ensures folds { pending.new.folds ≡ [] }
        ensures spare { pending.old.spare ≤ pending.new.spare }
    {
        let root = self.points.get();
        gather(
            root,
            self.further.as_slice(),
            self.valid.as_slice(),
            self.base.as_mut_slice(),
        );
        self.valid.fill(0);
        self.counts.fill(0);
        self.counts[0] = self.valid.len();
        clear(self.further.as_mut_slice());
        pending.settle(width, root, self.base.as_mut_slice());
    }
}

fn is_write(piece: &Piece) -> bool
    ensures { result ≡ is_write piece.now }
{
    matches!(piece.mode, Mode::Write)
}
