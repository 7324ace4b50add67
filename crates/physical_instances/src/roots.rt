//! One root with its fields.

ghost use Rattle.std.specs.Prelude.{◌≡◌, ◌≤◌, ◌<◌, IfNone, IfOk, IfSome, IsOk, None, OnErr, OnOk, Some, filter, length, map, not, slice_get};
ghost use Rattle.logical_map.specs.Gives.{is_reduction, is_write, with_pieces};
ghost use Rattle.logical_map.specs.Maps.{new_column};
ghost use Rattle.physical_instances.specs.Fields.{KeepsRoom, LowersRoom, with_field};
ghost use Rattle.physical_instances.specs.Kept.{column_in, live_root, no_field};
ghost use Rattle.std.specs.Prelude.{get_or};

use crate::fields::FieldInstances;
use crate::folding::is_reduction;
use lane_kernels::FieldKind;
use plain_values::Shared;
use point_sets::PointSet;
use region_tree::{Piece, RootId};
use std::alloc::{AllocError, Global};
use std::marker::Model;

/// A live root, by its number, with its fields in order.
#[derive(Drop)]
pub(crate) struct RootInstances {
    root: RootId,
    fields: Vec<FieldInstances>,
}

impl Model for RootInstances {
    ghost use Rattle.physical_instances.specs.Kept.{RootContents};

    ghost Value = { RootContents };

    ghost view = { λ r. record { root = r.root.0; fields = r.fields.items } };
}

impl RootInstances {
    /// A field of each kind with its zeros.
    pub(crate) fn new(
        alloc: Global,
        root: RootId,
        points: &PointSet,
        kinds: &[FieldKind],
    ) -> Result<RootInstances, AllocError>
        ensures root { IfOk result (λ r. r.root ≡ root.0) }
        ensures columns { IfOk result (λ r. map column_in r.fields ≡ map (new_column points.now) kinds.now) }
    {
        let points = Shared::new(alloc, points.copy()?)?;
        let fields = new_fields(alloc, &points, kinds)?;
        Ok(RootInstances { root, fields })
    }

    pub(crate) fn root(&self) -> u64
        ensures { result ≡ self.now.root }
    {
        self.root.0
    }

    pub(crate) fn field(&self, field: u8) -> Option<&FieldInstances>
        ensures some { IfSome result (λ f. slice_get self.now.fields field ≡ Some f.now) }
        ensures none { IfNone result (slice_get self.now.fields field ≡ None) }
    {
        self.fields.get(field as usize)
    }

    /// Folds the reductions in that wait on a field.
    pub(crate) fn settle(&mut self, field: u8)
        ensures root { live_root self.new ≡ live_root self.old }
        ensures spare { KeepsRoom self.old.fields self.new.fields }
    {
        let place = field as usize;
        if place < self.fields.len() {
            let found = &mut self.fields[place];
            found.settle();
        }
    }

    /// Takes a field's pieces for writing in.
    pub(crate) fn put_back(&mut self, field: u8, pieces: Vec<Piece>)
        ensures root { live_root self.new ≡ with_field field (with_pieces (filter is_write pieces.items)) (live_root self.old) }
        ensures spare { KeepsRoom self.old.fields self.new.fields }
    {
        let place = field as usize;
        if place < self.fields.len() {
            let found = &mut self.fields[place];
            found.put_back(pieces);
        }
    }

    /// Takes the reductions in and out of the pieces; where the field isn't there they are dropped.
    pub(crate) fn add_reductions(
        &mut self,
        field: u8,
        pieces: &mut Vec<Piece>,
    ) -> Result<(), AllocError>
        ensures root { OnOk result (live_root self.new
            ≡ with_field field (with_pieces (filter is_reduction pieces.old.items)) (live_root self.old)) }
        ensures pieces { OnOk result (pieces.new.items ≡ filter (λ h. not (is_reduction h)) pieces.old.items) }
        ensures err { OnErr result ((self.new ≡ self.old) × (pieces.new.items ≡ pieces.old.items)) }
        ensures sure { length (filter is_reduction pieces.old.items) ≤ (get_or self.old.fields field no_field).spare → IsOk result }
        ensures spare { LowersRoom field (length (filter is_reduction pieces.old.items)) self.old.fields self.new.fields }
    {
        let place = field as usize;
        if place < self.fields.len() {
            let found = &mut self.fields[place];
            found.add_reductions(pieces)?;
        } else {
            pieces.retain(|piece| !is_reduction(piece));
        }
        Ok(())
    }

    /// Makes room for so many reductions more on a field.
    pub(crate) fn reserve(&mut self, field: u8, more: usize) -> Result<(), AllocError>
        ensures root { live_root self.new ≡ live_root self.old }
        ensures spare { KeepsRoom self.old.fields self.new.fields }
        ensures more { OnOk result (field < length self.new.fields → more ≤ (get_or self.new.fields field no_field).spare) }
    {
        let place = field as usize;
        if place < self.fields.len() {
            let found = &mut self.fields[place];
            return found.reserve(more);
        }
        Ok(())
    }
}

fn new_fields(
    alloc: Global,
    points: &Shared<PointSet>,
    kinds: &[FieldKind],
) -> Result<Vec<FieldInstances>, AllocError>
    ensures { IfOk result (λ fs. map column_in fs.items ≡ map (new_column points.now) kinds.now) }
{
    let mut fields = Vec::new(alloc);
    for kind in kinds {
        fields.push(FieldInstances::new(alloc, points.share()?, *kind)?)?;
    }
    Ok(fields)
}
