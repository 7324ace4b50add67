//! The contents of all live roots.

ghost use Rattle.std.specs.Prelude.{◌≡◌, ◌≢◌, ◌↔◌, ◌≤◌, ◌+◌, ◌<◌, [], IfNone, IfOk, IfSome, IsOk, IsOkAnd, OnErr, OnOk};
ghost use Rattle.std.specs.Prelude.{filter, length, not, ℕ};
ghost use Rattle.logical_map.specs.Fills.{chunk_moved, started};
ghost use Rattle.logical_map.specs.Gives.{add_reduction, give_pieces, is_reduction, put_back, reductions_in, reductions_on, without_reductions};
ghost use Rattle.logical_map.specs.Maps.{IsThere, closed, column_of, no_column, number_at, opened};
ghost use Rattle.physical_instances.specs.Kept.{IsFull};
ghost use Rattle.physical_instances.specs.Fields.{LowersSpare};
ghost use Rattle.physical_instances.specs.Kept.{KeepsSpare, is_kept, map_of, spare_of};
ghost use Rattle.physical_instances.specs.declared.fill.Filled.TheVariants.{Full};
ghost use Rattle.std.specs.List.{position};

use crate::fields::FieldInstances;
use crate::fill::{Fill, Filled};
use crate::folding::{count_on, is_reduction};
use crate::roots::RootInstances;
use lane_kernels::{FieldKind, Mode};
use plain_values::Sequence;
use point_sets::PointSet;
use region_tree::{Part, Piece, RootId};
use std::alloc::{AllocError, Global};
use std::marker::Model;
use std::mem;

/// The contents of the live roots: for each root, field and point a number (`map_of`), and for each root and
/// field how many reductions more it takes for sure (`spare_of`).
#[derive(Drop)]
pub struct Contents {
    roots: Vec<RootInstances>,
}

impl Model for Contents {
    ghost use Rattle.std.specs.Prelude.{List};
    ghost use Rattle.physical_instances.specs.Kept.{RootContents};

    ghost Value = { List RootContents };

    ghost view = { λ c. c.roots.items };
}

impl Contents {
    /// No root is live. It takes no memory.
    pub fn new(alloc: Global) -> Result<Contents, AllocError>
        ensures { IsOkAnd result (λ c. c ≡ []) }
    {
        Ok(Contents {
            roots: Vec::new(alloc),
        })
    }

    /// Adds a root with fields of these kinds: null in pointers, 0 in the others.
    #[tactic(auto, using(crate::proofs::Keeping::spare_behind))]
    pub fn open_root(
        &mut self,
        root: RootId,
        points: &PointSet,
        kinds: &[FieldKind],
    ) -> Result<(), AllocError>
        ensures ok { OnOk result (map_of self.new ≡ opened root.0 points.now kinds.now (map_of self.old)) }
        ensures err { OnErr result (self.new ≡ self.old) }
        ensures spare { KeepsSpare self.old self.new }
    {
        let alloc = *self.roots.allocator();
        let opened = RootInstances::new(alloc, root, points, kinds)?;
        self.roots.push(opened)?;
        Ok(())
    }

    /// Takes a root away. It takes no memory.
    pub fn close_root(&mut self, root: RootId)
        ensures map { map_of self.new ≡ closed root.0 (map_of self.old) }
        ensures spare { (other field : ℕ) → other ≢ root.0 → spare_of self.old other field ≤ spare_of self.new other field }
    {
        self.roots.retain(|kept| kept.root() != root.0);
    }

    /// A part of these pieces that isn't filled yet.
    pub fn start_fill(
        &mut self,
        root: RootId,
        field: u8,
        pieces: Vec<(PointSet, Mode)>,
    ) -> Result<Fill, AllocError>
        ensures fill { IfOk result (λ f. f ≡ started root.0 field pieces.items (map_of self.old)) }
        ensures map { map_of self.new ≡ map_of self.old }
        ensures spare { KeepsSpare self.old self.new }
    {
        if pieces.iter().any(|piece| matches!(piece.1, Mode::Write)) {
            self.settle(root, field);
        }
        let alloc = *self.roots.allocator();
        let kind = self.kind_of(root, field);
        Fill::new(alloc, root, field, kind, pieces)
    }

    /// Moves the next 4,096 elements, or all that are left. Of a field that isn't there an element gets 0, or the
    /// identity of a reduction of truths. It takes no memory.
    #[tactic(auto, using(crate::proofs::Keeping::column_if_found))]
    pub fn fill_chunk(&mut self, fill: &mut Fill) -> Filled
        ensures fill { fill.new ≡ chunk_moved (map_of self.old) fill.old }
        ensures full { (result ≡ Full) ↔ IsFull fill.new }
        ensures map { map_of self.new ≡ map_of self.old }
        ensures spare { KeepsSpare self.old self.new }
    {
        fill.advance(self.field_of(fill.root(), fill.field()))
    }

    /// Writes the pieces for writing. It takes no memory.
    pub fn put_back(&mut self, part: Part)
        ensures map { map_of self.new ≡ put_back part (map_of self.old) }
        ensures spare { KeepsSpare self.old self.new }
    {
        if let Some(place) = self.place_of(part.root) {
            let kept = &mut self.roots[place];
            kept.put_back(part.field, part.pieces.into_vec());
        }
    }

    /// Makes room for the reductions of these parts. More of them on a field than a number counts count as a
    /// want of memory.
    pub fn reserve(&mut self, parts: &[Part]) -> Result<(), AllocError>
        ensures map { map_of self.new ≡ map_of self.old }
        ensures spare { KeepsSpare self.old self.new }
        ensures room { OnOk result ((root field : ℕ) → IsThere (map_of self.old) root field
            → reductions_on parts.now root field ≤ spare_of self.new root field) }
    {
        for part in parts {
            let Some(count) = count_on(parts, part.root, part.field) else {
                return Err(AllocError);
            };
            self.reserve_on(part.root, part.field, count)?;
        }
        Ok(())
    }

    /// Folds the reductions of a part in, and takes them out of it. With room for them it isn't refused, and takes
    /// no memory.
    pub fn add_reduction(&mut self, part: &mut Part) -> Result<(), AllocError>
        ensures map { OnOk result (map_of self.new ≡ add_reduction part.old (map_of self.old)) }
        ensures part { OnOk result (part.new ≡ without_reductions part.old) }
        ensures err { OnErr result ((map_of self.new ≡ map_of self.old) × (part.new ≡ part.old)) }
        ensures sure { length (filter is_reduction part.old.pieces) ≤ spare_of self.old part.old.root.0 part.old.field → IsOk result }
        ensures spare { (root field : ℕ) → spare_of self.old root field ≤ spare_of self.new root field + reductions_in root field part.old }
    {
        let alloc = *self.roots.allocator();
        let mut pieces = mem::replace(&mut part.pieces, Sequence::new(alloc)).into_vec();
        let added = self.add_reductions(part.root, part.field, &mut pieces);
        part.pieces = Sequence::from_vec(pieces);
        added
    }

    /// The number at a point; 0 where there is none. It takes no memory.
    pub fn value(&self, root: RootId, field: u8, point: u32) -> i64
        ensures { result ≡ number_at (map_of self.now) root.0 field point }
    {
        match self.field_of(root, field) {
            Some(found) => found.number(point),
            None => 0,
        }
    }

    /// Writes the numbers of a field into a slice with one place for each point of the root. It takes no memory.
    pub fn image(&self, root: RootId, field: u8, into: &mut [i64])
        requires { length into.old ≡ length (column_of (map_of self.now) root.0 field).points }
        ensures { into.new ≡ (column_of (map_of self.now) root.0 field).numbers }
    {
        if let Some(found) = self.field_of(root, field) {
            found.image(into);
        }
    }

    /// How many points a field has; None where it isn't there.
    pub fn count(&self, root: RootId, field: u8) -> Option<usize>
        ensures there { IfSome result (λ _. IsThere (map_of self.now) root.0 field) }
        ensures count { IfSome result (λ n. n ≡ length (column_of (map_of self.now) root.0 field).points) }
        ensures none { IfNone result (IsThere (map_of self.now) root.0 field → ⊥) }
    {
        match self.field_of(root, field) {
            Some(found) => Some(found.count()),
            None => None,
        }
    }

    /// The place of a live root.
    fn place_of(&self, root: RootId) -> Option<usize>
        ensures { result ≡ position (is_kept root.0) self.now }
    {
        self.roots.iter().position(|kept| kept.root() == root.0)
    }

    /// The kind of a field; that of a field that isn't there doesn't matter.
    fn kind_of(&self, root: RootId, field: u8) -> FieldKind
        ensures { result ≡ (column_of (map_of self.now) root.0 field).kind }
    {
        match self.field_of(root, field) {
            Some(found) => found.kind(),
            None => FieldKind::Truth,
        }
    }

    fn field_of(&self, root: RootId, field: u8) -> Option<&FieldInstances>
        ensures found { IfSome result (λ _. IsThere (map_of self.now) root.0 field) }
        ensures some { IfSome result (λ f. column_of (map_of self.now) root.0 field ≡ f.now.column) }
        ensures there { IfNone result (IsThere (map_of self.now) root.0 field → ⊥) }
        ensures none { IfNone result (column_of (map_of self.now) root.0 field ≡ no_column) }
    {
        match self.place_of(root) {
            Some(place) => self.roots[place].field(field),
            None => None,
        }
    }

    /// Folds the reductions in that wait on a field.
    fn settle(&mut self, root: RootId, field: u8)
        ensures map { map_of self.new ≡ map_of self.old }
        ensures spare { KeepsSpare self.old self.new }
    {
        if let Some(place) = self.place_of(root) {
            let kept = &mut self.roots[place];
            kept.settle(field);
        }
    }

    /// Takes the reductions in and out of the pieces; where the root or field isn't there they are dropped.
    fn add_reductions(
        &mut self,
        root: RootId,
        field: u8,
        pieces: &mut Vec<Piece>,
    ) -> Result<(), AllocError>
        ensures map { OnOk result (map_of self.new ≡ give_pieces root.0 field (filter is_reduction pieces.old.items) (map_of self.old)) }
        ensures pieces { OnOk result (pieces.new.items ≡ filter (λ h. not (is_reduction h)) pieces.old.items) }
        ensures err { OnErr result ((self.new ≡ self.old) × (pieces.new.items ≡ pieces.old.items)) }
        ensures sure { length (filter is_reduction pieces.old.items) ≤ spare_of self.old root.0 field → IsOk result }
        ensures spare { LowersSpare root.0 field (length (filter is_reduction pieces.old.items)) self.old self.new }
    {
        if let Some(place) = self.place_of(root) {
            let kept = &mut self.roots[place];
            kept.add_reductions(field, pieces)?;
        } else {
            pieces.retain(|piece| !is_reduction(piece));
        }
        Ok(())
    }

    /// Makes room for so many reductions more on a field.
    fn reserve_on(&mut self, root: RootId, field: u8, more: usize) -> Result<(), AllocError>
        ensures map { map_of self.new ≡ map_of self.old }
        ensures spare { KeepsSpare self.old self.new }
        ensures more { OnOk result (IsThere (map_of self.old) root.0 field → more ≤ spare_of self.new root.0 field) }
    {
        if let Some(place) = self.place_of(root) {
            let kept = &mut self.roots[place];
            return kept.reserve(field, more);
        }
        Ok(())
    }
}
