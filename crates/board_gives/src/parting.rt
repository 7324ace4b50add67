//! Partitions that are made.

ghost use Rattle.std.specs.Prelude.{◌≡◌, IfNone, IfOk, IfSome, OnErr, OnOk, false, length, true};
ghost use Rattle.board_gives.specs.Gives.{also_told, ended_with};
ghost use Rattle.board_gives.specs.Makes.{frame_with_partition, may_part, parted_with};
ghost use Rattle.board_terms.specs.Gives.{frame_left};
ghost use Rattle.board_terms.specs.Makes.{children_from, is_here};
ghost use Rattle.board_terms.specs.declared.operation.Ending.TheVariants.{Broken};
ghost use Rattle.machine_terms.specs.Makes.{is_sound};
ghost use Rattle.region_finder.specs.Forests.{IsForest};
ghost use Rattle.region_tree.specs.Kept.{Grows};
ghost use Rattle.region_tree.specs.Trees.{IsRegion, set_at, with_partition};

use crate::ending::{copy_left, fail, leave};
use crate::telling::{tell, untell};
use board_terms::{Ending, Operation, Wait};
use machine_terms::{After, Frame, PartitionValue, RegionValue, Value};
use plain_values::{Sequence, Shared};
use point_sets::PointSet;
use region_forest::Forest;
use region_tree::{Node, RootId, TreeFault};
use std::alloc::{AllocError, Global};

/// A partition of a region is made: it is on the stack of the task. Where the region isn't one of the tree, a set leaves
/// it, or sets share a point that are said not to, the operation is broken instead. Tells whether the partition was made.
pub fn make_partition(
    alloc: Global,
    tree: &mut Forest,
    operation: &mut Operation,
    region: &RegionValue,
    sets: Vec<PointSet>,
    disjoint: bool,
    after: &mut After,
) -> Result<bool, AllocError>
    ensures made { IfOk result (λ made. made ≡ may_part tree.old region.now sets.items disjoint) }
    ensures tree { IfOk result (λ made. made ≡ true
        → tree.new ≡ with_partition tree.old region.now.node.0 sets.items disjoint) }
    ensures operation { IfOk result (λ made. made ≡ true
        → operation.new ≡ parted_with tree.old region.now sets.items disjoint operation.old after.old) }
    ensures refused { IfOk result (λ made. made ≡ false → tree.new ≡ tree.old) }
    ensures broken { IfOk result (λ made. made ≡ false → operation.new ≡ ended_with operation.old after.old Broken) }
    ensures grows { Grows tree.old tree.new }
    ensures forest { IsForest tree.old }
    ensures unchanged { OnErr result (operation.new ≡ operation.old) }
    ensures same { OnErr result (tree.new ≡ tree.old) }
    ensures handed { OnErr result (after.new ≡ after.old) }
{
    match prepare_partition(alloc, tree, operation, region, sets, disjoint, after)? {
        Some(frame) => {
            leave(alloc, operation, after);
            operation.frame = frame;
            operation.wait = Wait::Nothing;
            Ok(true)
        }
        None => {
            fail(alloc, operation, Ending::Broken, after)?;
            Ok(false)
        }
    }
}

/// Makes the partition where it may be made, tells the text, and answers the frame with the partition.
fn prepare_partition(
    alloc: Global,
    tree: &mut Forest,
    operation: &mut Operation,
    region: &RegionValue,
    sets: Vec<PointSet>,
    disjoint: bool,
    after: &After,
) -> Result<Option<Frame>, AllocError>
    ensures may { IfOk result (λ f. IfSome f (λ _. may_part tree.old region.now sets.items disjoint ≡ true)) }
    ensures frame { IfOk result (λ f. IfSome f (λ g. g ≡ frame_with_partition (length tree.old.nodes) region.now.root sets.items
        disjoint (frame_left operation.old.frame after.now.frame))) }
    ensures tree { IfOk result (λ f. IfSome f (λ _. tree.new
        ≡ with_partition tree.old region.now.node.0 sets.items disjoint)) }
    ensures told { IfOk result (λ f. IfSome f (λ _. operation.new ≡ also_told operation.old after.now.text)) }
    ensures none { IfOk result (λ f. IfNone f (may_part tree.old region.now sets.items disjoint ≡ false)) }
    ensures stays { IfOk result (λ f. IfNone f (tree.new ≡ tree.old)) }
    ensures untold { IfOk result (λ f. IfNone f (operation.new ≡ operation.old)) }
    ensures grows { Grows tree.old tree.new }
    ensures forest { IsForest tree.old }
    ensures unchanged { OnErr result (operation.new ≡ operation.old) }
    ensures same { OnErr result (tree.new ≡ tree.old) }
{
    if !is_here(tree, region) {
        return Ok(None);
    }
    let frame = parted_frame(alloc, tree, region.root, &sets, disjoint, operation, after)?;
    let text = after.text.as_slice();
    if tell_partition(alloc, tree, operation, region.node, sets, disjoint, text)? {
        Ok(Some(frame))
    } else {
        Ok(None)
    }
}

/// The frame that a segment left an operation, with the next partition of the tree.
fn parted_frame(
    alloc: Global,
    tree: &Forest,
    root: RootId,
    sets: &[PointSet],
    disjoint: bool,
    operation: &Operation,
    after: &After,
) -> Result<Frame, AllocError>
    ensures { IfOk result (λ f. f ≡ frame_with_partition (length tree.now.nodes) root sets.now
        disjoint (frame_left operation.now.frame after.now.frame)) }
{
    let mut frame = copy_left(alloc, operation, after)?;
    push_partition(alloc, tree, root, sets, disjoint, &mut frame)?;
    Ok(frame)
}

/// Makes a partition where it may be made, and tells the text then. Tells whether it was made.
fn tell_partition(
    alloc: Global,
    tree: &mut Forest,
    operation: &mut Operation,
    region: Node,
    sets: Vec<PointSet>,
    disjoint: bool,
    text: &[u8],
) -> Result<bool, AllocError>
    requires { IsRegion tree.old region.0 }
    ensures made { IfOk result (λ made. made ≡ is_sound (set_at tree.old region.0) sets.items disjoint) }
    ensures tree { IfOk result (λ made. made ≡ true
        → tree.new ≡ with_partition tree.old region.0 sets.items disjoint) }
    ensures told { IfOk result (λ made. made ≡ true → operation.new ≡ also_told operation.old text.now) }
    ensures stays { IfOk result (λ made. made ≡ false → tree.new ≡ tree.old) }
    ensures untold { IfOk result (λ made. made ≡ false → operation.new ≡ operation.old) }
    ensures grows { Grows tree.old tree.new }
    ensures unchanged { OnErr result (operation.new ≡ operation.old) }
    ensures same { OnErr result (tree.new ≡ tree.old) }
{
    tell(alloc, operation, text)?;
    match add_partition(tree, region, sets, disjoint) {
        Ok(true) => Ok(true),
        refused => {
            untell(operation, text);
            refused
        }
    }
}

/// Whether a region that a value names is one of the tree, with its root.
#[tactic(auto, using(crate::proofs::Parts::here_is, crate::proofs::Parts::not_here))]
pub fn is_here(tree: &Forest, region: &RegionValue) -> bool
    ensures here { result ≡ is_here tree.now region.now }
    ensures region { result ≡ true → IsRegion tree.now region.now.node.0 }
    ensures forest { IsForest tree.now }
{
    let known = tree.tree();
    tree.is_region(region.node) && known.root_of(region.node).0 == region.root.0
}

/// Makes a partition where its sets lie in the region, and share no point where it is to be disjoint. Tells whether it
/// was made. 2^32 sets, which no segment makes, count as a want of memory.
fn add_partition(
    tree: &mut Forest,
    region: Node,
    sets: Vec<PointSet>,
    disjoint: bool,
) -> Result<bool, AllocError>
    requires { IsRegion tree.old region.0 }
    ensures made { IfOk result (λ made. made ≡ is_sound (set_at tree.old region.0) sets.items disjoint) }
    ensures tree { IfOk result (λ made. made ≡ true
        → tree.new ≡ with_partition tree.old region.0 sets.items disjoint) }
    ensures stays { IfOk result (λ made. made ≡ false → tree.new ≡ tree.old) }
    ensures grows { Grows tree.old tree.new }
    ensures same { OnErr result (tree.new ≡ tree.old) }
{
    if sets.len() > u32::MAX as usize {
        return Err(AllocError);
    }
    match tree.add_partition(region, sets, disjoint) {
        Ok(_) => Ok(true),
        Err(TreeFault::NotWithin { .. }) => Ok(false),
        Err(TreeFault::NotDisjoint { .. }) => Ok(false),
        Err(TreeFault::Memory(failed)) => Err(failed),
    }
}

/// The next partition of the tree is on the stack of a frame.
fn push_partition(
    alloc: Global,
    tree: &Forest,
    root: RootId,
    sets: &[PointSet],
    disjoint: bool,
    frame: &mut Frame,
) -> Result<(), AllocError>
    ensures { OnOk result (frame.new ≡ frame_with_partition (length tree.now.nodes) root sets.now disjoint frame.old) }
{
    let (_, partition) = tree.tree().next();
    let children = Shared::new(alloc, children_of(alloc, root, partition, sets)?)?;
    frame.stack.push(Value::Partition(PartitionValue {
        root,
        disjoint,
        children,
    }))
}

/// A region for each colour of a partition. A node past the last number counts as a want of memory.
fn children_of(
    alloc: Global,
    root: RootId,
    partition: Node,
    sets: &[PointSet],
) -> Result<Sequence<RegionValue>, AllocError>
    ensures { IfOk result (λ rs. rs ≡ children_from root partition.0 0 sets.now) }
{
    let mut children = Sequence::new(alloc);
    for (colour, set) in sets.iter().enumerate() {
        let past = colour as u64 + 1;
        let node = partition.0.checked_add(past).ok_or(AllocError)?;
        children.push(RegionValue {
            root,
            node: Node(node),
            points: Shared::new(alloc, set.copy()?)?,
        })?;
    }
    Ok(children)
}
