//! Roots that are made.

ghost use Rattle.std.specs.Prelude.{◌≡◌, ◌<◌, ◌∷◌, ◌++◌, [], All, IfOk, OnErr, OnOk, length, map};
ghost use Rattle.board_gives.specs.Gives.{also_told};
ghost use Rattle.board_gives.specs.Makes.{IsRootBelow, rooted_with};
ghost use Rattle.board_terms.specs.Gives.{frame_left};
ghost use Rattle.board_terms.specs.Makes.{frame_with_root, needs_of_root};
ghost use Rattle.logical_map.specs.Maps.{opened};
ghost use Rattle.machine_terms.specs.Contents.{kinds_of};
ghost use Rattle.machine_terms.specs.Makes.{fields_needed};
ghost use Rattle.physical_instances.specs.Kept.{map_of};
ghost use Rattle.plain_values.specs.Points.{points};
ghost use Rattle.region_finder.specs.Forests.{IsForest};
ghost use Rattle.region_tree.specs.Kept.{Grows};
ghost use Rattle.region_tree.specs.Trees.{with_root};
ghost use Rattle.task_code.specs.declared.code.FieldCode.{FieldCode as field_term};

use crate::ending::{copy_left, leave};
use crate::telling::{tell, untell};
use board_terms::{Extent, Operation, Wait};
use index_spaces::Ispace;
use lane_kernels::{FieldKind, Mode};
use machine_terms::{After, Frame, RegionValue, Value};
use physical_instances::Contents;
use plain_values::{Sequence, Shared};
use point_sets::PointSet;
use region_forest::Forest;
use region_tree::{Need, Node, RootId};
use std::alloc::{AllocError, Global};
use task_code::{Code, FieldCode};

/// A root is made: its region is on the stack of the task, which needs its fields.
pub fn make_root(
    alloc: Global,
    code: &Code,
    tree: &mut Forest,
    roots: &mut Vec<Extent>,
    contents: &mut Contents,
    operation: &mut Operation,
    space: Ispace,
    fields: u32,
    after: &mut After,
) -> Result<(), AllocError>
    requires { All (IsRootBelow tree.old.roots) (map_of contents.old) }
    ensures tree { OnOk result (tree.new ≡ with_root tree.old (points space)) }
    ensures grows { Grows tree.old tree.new }
    ensures forest { OnOk result (IsForest tree.old) }
    ensures roots { OnOk result (roots.new.items ≡ roots.old.items ++ record { space = fields; count = space } ∷ []) }
    ensures map { OnOk result (map_of contents.new
        ≡ opened tree.old.roots (points space) (kinds_of code.now fields) (map_of contents.old)) }
    ensures operation { OnOk result (operation.new
        ≡ rooted_with code.now tree.old space fields operation.old after.old) }
    ensures unchanged { OnErr result (operation.new ≡ operation.old) }
    ensures same { OnErr result ((tree.new ≡ tree.old) × (map_of contents.new ≡ map_of contents.old)) }
    ensures as_many { OnErr result (roots.new.items ≡ roots.old.items) }
    ensures handed { OnErr result (after.new ≡ after.old) }
{
    let frame = prepare_root(
        alloc, code, tree, roots, contents, operation, space, fields, after,
    )?;
    leave(alloc, operation, after);
    operation.frame = frame;
    operation.wait = Wait::Nothing;
    Ok(())
}

/// Makes the root, tells the text, and answers the frame with the root.
fn prepare_root(
    alloc: Global,
    code: &Code,
    tree: &mut Forest,
    roots: &mut Vec<Extent>,
    contents: &mut Contents,
    operation: &mut Operation,
    space: Ispace,
    fields: u32,
    after: &After,
) -> Result<Frame, AllocError>
    requires { All (IsRootBelow tree.old.roots) (map_of contents.old) }
    ensures frame { IfOk result (λ f. f ≡ frame_with_root code.now (record { 0 = tree.old.roots }) (length tree.old.nodes)
        space fields (frame_left operation.old.frame after.now.frame)) }
    ensures tree { OnOk result (tree.new ≡ with_root tree.old (points space)) }
    ensures grows { Grows tree.old tree.new }
    ensures forest { OnOk result (IsForest tree.old) }
    ensures roots { OnOk result (roots.new.items ≡ roots.old.items ++ record { space = fields; count = space } ∷ []) }
    ensures map { OnOk result (map_of contents.new
        ≡ opened tree.old.roots (points space) (kinds_of code.now fields) (map_of contents.old)) }
    ensures told { OnOk result (operation.new ≡ also_told operation.old after.now.text) }
    ensures unchanged { OnErr result (operation.new ≡ operation.old) }
    ensures same { OnErr result ((tree.new ≡ tree.old) × (map_of contents.new ≡ map_of contents.old)) }
    ensures as_many { OnErr result (roots.new.items ≡ roots.old.items) }
{
    let points = space.points(alloc)?;
    let frame = rooted_frame(alloc, code, tree, &points, space, fields, operation, after)?;
    let extent = Extent {
        space: fields,
        count: space.volume(),
    };
    let text = after.text.as_slice();
    tell_root(
        alloc, code, tree, roots, contents, operation, points, extent, text,
    )?;
    Ok(frame)
}

/// The frame that a segment left an operation, with the next root of the tree.
fn rooted_frame(
    alloc: Global,
    code: &Code,
    tree: &Forest,
    set: &PointSet,
    space: Ispace,
    fields: u32,
    operation: &Operation,
    after: &After,
) -> Result<Frame, AllocError>
    requires { set.now ≡ points space }
    ensures { IfOk result (λ f. f ≡ frame_with_root code.now (record { 0 = tree.now.roots }) (length tree.now.nodes)
        space fields (frame_left operation.now.frame after.now.frame)) }
{
    let mut frame = copy_left(alloc, operation, after)?;
    push_root(alloc, code, tree, set, space, fields, &mut frame)?;
    Ok(frame)
}

/// Tells the text, and a root is there.
fn tell_root(
    alloc: Global,
    code: &Code,
    tree: &mut Forest,
    roots: &mut Vec<Extent>,
    contents: &mut Contents,
    operation: &mut Operation,
    points: PointSet,
    extent: Extent,
    text: &[u8],
) -> Result<(), AllocError>
    requires { All (IsRootBelow tree.old.roots) (map_of contents.old) }
    ensures tree { OnOk result (tree.new ≡ with_root tree.old points) }
    ensures grows { Grows tree.old tree.new }
    ensures forest { OnOk result (IsForest tree.old) }
    ensures roots { OnOk result (roots.new.items ≡ roots.old.items ++ extent ∷ []) }
    ensures map { OnOk result (map_of contents.new
        ≡ opened tree.old.roots points (kinds_of code.now extent.space) (map_of contents.old)) }
    ensures told { OnOk result (operation.new ≡ also_told operation.old text.now) }
    ensures unchanged { OnErr result (operation.new ≡ operation.old) }
    ensures same { OnErr result ((tree.new ≡ tree.old) × (map_of contents.new ≡ map_of contents.old)) }
    ensures as_many { OnErr result (roots.new.items ≡ roots.old.items) }
{
    tell(alloc, operation, text)?;
    match open_root(alloc, code, tree, roots, contents, points, extent) {
        Ok(()) => Ok(()),
        Err(failed) => {
            untell(operation, text);
            Err(failed)
        }
    }
}

/// A root is there, with its contents and its extent.
#[tactic(auto, using(crate::proofs::Makes::closed_opened))]
fn open_root(
    alloc: Global,
    code: &Code,
    tree: &mut Forest,
    roots: &mut Vec<Extent>,
    contents: &mut Contents,
    points: PointSet,
    extent: Extent,
) -> Result<(), AllocError>
    requires { All (IsRootBelow tree.old.roots) (map_of contents.old) }
    ensures tree { OnOk result (tree.new ≡ with_root tree.old points) }
    ensures grows { Grows tree.old tree.new }
    ensures forest { OnOk result (IsForest tree.old) }
    ensures roots { OnOk result (roots.new.items ≡ roots.old.items ++ extent ∷ []) }
    ensures map { OnOk result (map_of contents.new
        ≡ opened tree.old.roots points (kinds_of code.now extent.space) (map_of contents.old)) }
    ensures same { OnErr result ((tree.new ≡ tree.old) × (map_of contents.new ≡ map_of contents.old)) }
    ensures as_many { OnErr result (roots.new.items ≡ roots.old.items) }
{
    let (root, _) = tree.tree().next();
    let kinds = kinds_of(alloc, code, extent.space)?;
    roots.reserve(1)?;
    contents.open_root(root, &points, kinds.as_slice())?;
    match tree.add_root(points) {
        Ok(_) => {
            roots.push_reserved(extent);
            Ok(())
        }
        Err(failed) => {
            contents.close_root(root);
            Err(failed)
        }
    }
}

/// The kinds of the fields of a field space.
fn kinds_of(alloc: Global, code: &Code, space: u32) -> Result<Vec<FieldKind>, AllocError>
    ensures { IfOk result (λ ks. ks.items ≡ kinds_of code.now space) }
{
    match code.spaces.as_slice().get(space as usize) {
        Some(found) => kinds_in(alloc, found.fields.as_slice()),
        None => Ok(Vec::new(alloc)),
    }
}

fn kinds_in(alloc: Global, fields: &[FieldCode]) -> Result<Vec<FieldKind>, AllocError>
    ensures { IfOk result (λ ks. ks.items ≡ map (λ (f : field_term). f.kind) fields.now) }
{
    let mut kinds = Vec::new(alloc);
    for field in fields {
        kinds.push(field.kind)?;
    }
    Ok(kinds)
}

/// The next root of the tree is on the stack of a frame, which needs its fields.
fn push_root(
    alloc: Global,
    code: &Code,
    tree: &Forest,
    set: &PointSet,
    space: Ispace,
    fields: u32,
    frame: &mut Frame,
) -> Result<(), AllocError>
    requires { set.now ≡ points space }
    ensures { OnOk result (frame.new ≡ frame_with_root code.now (record { 0 = tree.now.roots }) (length tree.now.nodes) space fields frame.old) }
{
    let (root, node) = tree.tree().next();
    let needed = fields_needed(code, space.volume(), fields);
    add_needs(&mut frame.needs.items, root, node, needed)?;
    frame.own.push(root)?;
    frame.stack.push(Value::Region(RegionValue {
        root,
        node,
        points: Shared::new(alloc, set.copy()?)?,
    }))
}

/// How many fields of a new root are needed: none where it has no points.
fn fields_needed(code: &Code, size: u32, space: u32) -> usize
    ensures { result ≡ fields_needed code.now size space }
{
    if size == 0 {
        return 0;
    }
    match code.spaces.as_slice().get(space as usize) {
        Some(found) => found.fields.len(),
        None => 0,
    }
}

/// Adds the needs of the first fields of a new root. A field above the 256th counts as a want of memory.
fn add_needs(
    needs: &mut Sequence<Need>,
    root: RootId,
    node: Node,
    fields: usize,
) -> Result<(), AllocError>
    ensures { OnOk result (needs.new ≡ needs.old ++ needs_of_root root node.0 fields) }
{
    for field in 0..fields {
        let field = u8::try_from(field).map_err(|_| AllocError)?;
        needs.push(Need {
            root,
            node,
            field,
            mode: Mode::Write,
        })?;
    }
    Ok(())
}
