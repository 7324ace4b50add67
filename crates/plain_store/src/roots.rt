//! Roots and partitions that are made.

ghost use Rattle.std.specs.Prelude.{◌≡◌, [], ◌∷◌, ◌++◌, map, replicate, IfOk, OnOk};
ghost use Rattle.regent_tree.specs.Store.{new_root};
ghost use Rattle.regent_tree.specs.Values.{kept_zero};
ghost use Rattle.machine_terms.specs.Contents.{kinds_of, with_root};
ghost use Rattle.machine_terms.specs.Makes.{fields_needed, make_partition, make_root, region_with};
ghost use Rattle.machine_terms.specs.Makes.{root_needs, root_requirements};
ghost use Rattle.machine_terms.specs.declared.value.Value.TheVariants.{Region};

use crate::contents::count_fields;
use crate::opening::add_root_needs;
use crate::requiring::add_root_requirements;
use index_spaces::Ispace;
use lane_kernels::FieldKind;
use machine_terms::{Contents, Frame, Instance, PartitionValue, RegionValue, Root, Value};
use plain_values::{Sequence, Shared};
use point_sets::PointSet;
use regent_tree::RootImage;
use region_tree::{Node, RootId};
use std::alloc::{AllocError, Global};
use task_code::{Code, FieldCode};

/// What a new root holds: the zeros of its fields' kinds.
fn new_root(alloc: Global, code: &Code, size: u32, space: u32) -> Result<RootImage, AllocError>
    ensures { IfOk result (λ r. r ≡ new_root space size (kinds_of code.now space)) }
{
    let fields = match code.spaces.as_slice().get(space as usize) {
        Some(found) => new_columns(alloc, found.fields.as_slice(), size)?,
        None => Sequence::new(alloc),
    };
    Ok(RootImage {
        space,
        count: size,
        fields,
    })
}

fn new_columns(
    alloc: Global,
    fields: &[FieldCode],
    size: u32,
) -> Result<Sequence<Sequence<i64>>, AllocError>
    ensures { IfOk result (λ c. c
        ≡ map (λ k. replicate size (kept_zero k)) (map (λ (f : FieldCode). f.kind) fields.now)) }
{
    let mut columns = Vec::new(alloc);
    for field in fields {
        let zero = kept_zero(field.kind);
        columns.push(Sequence::from_vec(vec![in alloc; zero; size as usize]?))?;
    }
    Ok(Sequence::from_vec(columns))
}

/// The number that a new field keeps.
fn kept_zero(kind: FieldKind) -> i64
    ensures { result ≡ kept_zero kind }
{
    match kind {
        FieldKind::Pointer => -1,
        _ => 0,
    }
}

/// Adds a root. More roots than a number counts count as a want of memory.
fn add_root(contents: &mut Contents, image: RootImage) -> Result<(), AllocError>
    ensures { OnOk result (contents.new ≡ with_root image contents.old) }
{
    let made = contents.made;
    let Some(after) = made.checked_add(1) else {
        return Err(AllocError);
    };
    contents.roots.push(Root {
        id: RootId(made),
        image,
    })?;
    contents.made = after;
    Ok(())
}

/// How many fields of a new root are needed: none where it has no points.
fn fields_needed(code: &Code, size: u32, space: u32) -> usize
    ensures { result ≡ fields_needed code.now size space }
{
    if size == 0 {
        0
    } else {
        count_fields(code, space)
    }
}

/// The task that makes a root has its region on the stack, and needs its fields.
fn enter_root(frame: &mut Frame, region: RegionValue, fields: usize) -> Result<(), AllocError>
    ensures { OnOk result (frame.new ≡ record frame.old {
      stack = Region region ∷ frame.old.stack;
      needs = record { items = frame.old.needs.items ++ root_needs region.root.0 fields };
      own = frame.old.own ++ region.root ∷ [];
    }) }
{
    let root = region.root;
    add_root_needs(&mut frame.needs.items, root, fields)?;
    frame.own.push(root)?;
    frame.stack.push(Value::Region(region))
}

/// Makes a root of a field space for an instance.
pub fn make_root(
    alloc: Global,
    code: &Code,
    size: Ispace,
    space: u32,
    instance: &mut Instance,
) -> Result<(), AllocError>
    ensures { OnOk result (instance.new ≡ make_root code.now size space instance.old) }
{
    let points = Shared::new(alloc, size.points(alloc)?)?;
    let image = new_root(alloc, code, size.volume(), space)?;
    let fields = fields_needed(code, size.volume(), space);
    add_new_root(points, image, fields, instance)
}

/// Adds a root of these points to an instance, of which the first fields are needed.
fn add_new_root(
    points: Shared<PointSet>,
    image: RootImage,
    fields: usize,
    instance: &mut Instance,
) -> Result<(), AllocError>
    ensures { OnOk result (instance.new ≡ record instance.old {
      frame = record instance.old.frame {
        stack = Region (region_with instance.old.contents.made points) ∷ instance.old.frame.stack;
        needs = record {
          items = instance.old.frame.needs.items
              ++ root_needs instance.old.contents.made fields;
        };
        own = instance.old.frame.own ++ record { 0 = instance.old.contents.made } ∷ [];
      };
      contents = with_root image instance.old.contents;
      needs = instance.old.needs ++ root_requirements instance.old.contents.made points fields;
    }) }
{
    let root = RootId(instance.contents.made);
    add_root_requirements(&mut instance.needs, root, &points, fields)?;
    add_root(&mut instance.contents, image)?;
    enter_root(&mut instance.frame, region_with(root, points), fields)
}

/// A region of a root, which has no node in a run in order.
fn region_with(root: RootId, points: Shared<PointSet>) -> RegionValue
    ensures { result ≡ region_with root.0 points }
{
    RegionValue {
        root,
        node: Node(0),
        points,
    }
}

/// Makes a partition of a region for an instance.
pub fn make_partition(
    alloc: Global,
    region: RegionValue,
    sets: Sequence<PointSet>,
    disjoint: bool,
    instance: &mut Instance,
) -> Result<(), AllocError>
    ensures { OnOk result (instance.new ≡ make_partition region sets disjoint instance.old) }
{
    let root = region.root;
    let children = Shared::new(alloc, regions_with(alloc, root, sets)?)?;
    instance.frame.stack.push(Value::Partition(PartitionValue {
        root,
        disjoint,
        children,
    }))
}

fn regions_with(
    alloc: Global,
    root: RootId,
    sets: Sequence<PointSet>,
) -> Result<Sequence<RegionValue>, AllocError>
    ensures { IfOk result (λ rs. rs ≡ map (region_with root.0) sets) }
{
    let mut regions = Vec::new(alloc);
    for set in sets.into_vec() {
        regions.push(region_with(root, Shared::new(alloc, set)?))?;
    }
    Ok(Sequence::from_vec(regions))
}
