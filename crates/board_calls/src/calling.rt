//! Segments that end in calls.

ghost use Rattle.std.specs.Prelude.{◌≡◌, ◌<◌, ◌≤◌, ◌+◌, ◌++◌, All, IfOk, IfSome, OnErr, OnOk, length, map, vec_capacity, vec_len};
ghost use Rattle.board_calls.specs.Calls.{HasNeedsOf, activity_by, are_all, called_operations, called_waits, calling, calls_in, frames_of, numbers_from, waiting_by};
ghost use Rattle.board_gives.specs.Gives.{also_told};
ghost use Rattle.board_gives.specs.Rooms.{HasRoom};
ghost use Rattle.board_terms.specs.Calls.{needs_of};
ghost use Rattle.board_terms.specs.Gives.{with_parts};
ghost use Rattle.board_terms.specs.States.{called_by};
ghost use Rattle.board_terms.specs.declared.operation.Wait.TheVariants as wait_term;
ghost use Rattle.dependence_graph.specs.Graphs.{issued};
ghost use Rattle.dependence_graph.specs.Knots.{knot_at};
ghost use Rattle.dependence_graph.specs.declared.stage.Stage.TheVariants.{Begun};
ghost use Rattle.physical_instances.specs.Kept.{map_of};
ghost use Rattle.region_finder.specs.Listings.{IsListingOf};

use crate::issuing::{issue_children, numbers_from};
use crate::opening::frames_before;
use board_gives::{Waits, give_parts, leave, take_parts, tell, untell, wait_for_nothing};
use board_terms::{Activity, Ending, Operation, Wait};
use machine_terms::{After, CallOut, Frame, Yield};
use physical_instances::Contents;
use plain_values::Sequence;
use region_forest::Forest;
use region_tree::OpNumber;
use std::alloc::{AllocError, Global};
use task_code::Code;

/// The calls of a segment are issued, as far as they may be, and its parts go back. Where all are issued the caller goes
/// on, and else it is broken.
pub fn give_calls(
    alloc: Global,
    code: &Code,
    turns: u64,
    tree: &Forest,
    contents: &mut Contents,
    graph: &mut Waits,
    operations: &mut Vec<Operation>,
    op: OpNumber,
    after: &mut After,
) -> Result<(), AllocError>
    requires there { op.0 < length operations.old.items }
    requires begun { (knot_at graph.old.knots op.0).stage ≡ Begun }
    requires listing { IsListingOf tree.now graph.old.listing }
    requires needs { IfSome after.old.frame (HasNeedsOf tree.now) }
    ensures operations { OnOk result (operations.new.items ≡ called_operations operations.old.items op after.old
        (frames_of code.now turns tree.now (map_of contents.old) after.old)
        (are_all code.now turns tree.now (map_of contents.old) after.old)) }
    ensures graph { OnOk result (graph.new ≡ called_waits tree.now graph.old op
        (frames_of code.now turns tree.now (map_of contents.old) after.old)
        (are_all code.now turns tree.now (map_of contents.old) after.old)) }
    ensures map { OnOk result (map_of contents.new ≡ with_parts after.old.parts (map_of contents.old)) }
    ensures unchanged { OnErr result (operations.new.items ≡ operations.old.items) }
    ensures same { OnErr result ((graph.new ≡ graph.old) × (map_of contents.new ≡ map_of contents.old)) }
    ensures handed { OnErr result (after.new ≡ after.old) }
{
    let first = operations.len() as u64;
    operations.reserve(calls_of(after).len())?;
    let operation = &mut operations[op.0 as usize];
    let frames = call_out(
        alloc, code, turns, tree, contents, graph, operation, op, first, after,
    )?;
    add_children(alloc, operations, op, frames);
    Ok(())
}

/// The calls that a segment ends in.
fn calls_of(after: &After) -> &[CallOut]
    ensures { result.now ≡ calls_in after.now.ends }
{
    match &after.ends {
        Yield::Calls(calls) => calls.as_slice(),
        _ => &[],
    }
}

/// Issues the calls for which there are numbers from the first one on, and answers the frames in which they begin.
fn call_out(
    alloc: Global,
    code: &Code,
    turns: u64,
    tree: &Forest,
    contents: &mut Contents,
    graph: &mut Waits,
    operation: &mut Operation,
    op: OpNumber,
    first: u64,
    after: &mut After,
) -> Result<Vec<Frame>, AllocError>
    requires begun { (knot_at graph.old.knots op.0).stage ≡ Begun }
    requires listing { IsListingOf tree.now graph.old.listing }
    requires needs { IfSome after.old.frame (HasNeedsOf tree.now) }
    ensures frames { IfOk result (λ fs. fs.items ≡ frames_of code.now turns tree.now (map_of contents.old) after.old) }
    ensures operation { OnOk result (operation.new ≡ calling operation.old after.old first
        (length (frames_of code.now turns tree.now (map_of contents.old) after.old))
        (are_all code.now turns tree.now (map_of contents.old) after.old)) }
    ensures graph { OnOk result (graph.new ≡ called_waits tree.now graph.old op
        (frames_of code.now turns tree.now (map_of contents.old) after.old)
        (are_all code.now turns tree.now (map_of contents.old) after.old)) }
    ensures map { OnOk result (map_of contents.new ≡ with_parts after.old.parts (map_of contents.old)) }
    ensures unchanged { OnErr result (operation.new ≡ operation.old) }
    ensures same { OnErr result ((graph.new ≡ graph.old) × (map_of contents.new ≡ map_of contents.old)) }
    ensures handed { OnErr result (after.new ≡ after.old) }
{
    let frames = prepare(
        alloc, code, turns, tree, contents, graph, operation, op, first, after,
    )?;
    let all = frames.len() == calls_of(after).len();
    leave(alloc, operation, after);
    give_parts(contents, take_parts(alloc, operation));
    go_on(tree, graph, operation, op, all);
    Ok(frames)
}

/// Takes all memory that calls want, tells the text and issues the children, of whose frames it answers.
fn prepare(
    alloc: Global,
    code: &Code,
    turns: u64,
    tree: &Forest,
    contents: &mut Contents,
    graph: &mut Waits,
    operation: &mut Operation,
    op: OpNumber,
    first: u64,
    after: &After,
) -> Result<Vec<Frame>, AllocError>
    requires begun { (knot_at graph.old.knots op.0).stage ≡ Begun }
    requires listing { IsListingOf tree.now graph.old.listing }
    requires needs { IfSome after.now.frame (HasNeedsOf tree.now) }
    ensures frames { IfOk result (λ fs. fs.items ≡ frames_of code.now turns tree.now (map_of contents.old) after.now) }
    ensures operation { IfOk result (λ fs. operation.new ≡ record (also_told operation.old after.now.text) {
      children = operation.old.children ++ numbers_from first (length fs.items);
    }) }
    ensures graph { IfOk result (λ fs. graph.new ≡ issued tree.now graph.old op (needs_of fs.items)) }
    ensures begun { OnOk result ((knot_at graph.new.knots op.0).stage ≡ Begun) }
    ensures listing { OnOk result (IsListingOf tree.now graph.new.listing) }
    ensures room { OnOk result (HasRoom contents.new after.now.parts) }
    ensures map { map_of contents.new ≡ map_of contents.old }
    ensures unchanged { OnErr result (operation.new ≡ operation.old) }
    ensures same { OnErr result (graph.new ≡ graph.old) }
{
    let frames = frames_of(alloc, code, turns, tree, contents, after)?;
    contents.reserve(after.parts.as_slice())?;
    let text = after.text.as_slice();
    let issued = frames.as_slice();
    tell_calls(alloc, tree, graph, operation, op, first, text, issued)?;
    Ok(frames)
}

/// Tells the text, and issues the children that begin in these frames, by their numbers from the first one on.
fn tell_calls(
    alloc: Global,
    tree: &Forest,
    graph: &mut Waits,
    operation: &mut Operation,
    op: OpNumber,
    first: u64,
    text: &[u8],
    frames: &[Frame],
) -> Result<(), AllocError>
    requires begun { (knot_at graph.old.knots op.0).stage ≡ Begun }
    requires listing { IsListingOf tree.now graph.old.listing }
    requires needs { All (HasNeedsOf tree.now) frames.now }
    ensures operation { OnOk result (operation.new ≡ record (also_told operation.old text.now) {
      children = operation.old.children ++ numbers_from first (length frames.now);
    }) }
    ensures graph { OnOk result (graph.new ≡ issued tree.now graph.old op (needs_of frames.now)) }
    ensures begun { OnOk result ((knot_at graph.new.knots op.0).stage ≡ Begun) }
    ensures listing { OnOk result (IsListingOf tree.now graph.new.listing) }
    ensures unchanged { OnErr result (operation.new ≡ operation.old) }
    ensures same { OnErr result (graph.new ≡ graph.old) }
{
    let numbers = numbers_from(alloc, first, frames.len())?;
    tell(alloc, operation, text)?;
    match issue_children(
        alloc,
        tree,
        graph,
        operation,
        op,
        numbers.as_slice(),
        frames,
    ) {
        Ok(()) => Ok(()),
        Err(failed) => {
            untell(operation, text);
            Err(failed)
        }
    }
}

/// The frames in which the calls of a segment begin, as far as they may be issued.
fn frames_of(
    alloc: Global,
    code: &Code,
    turns: u64,
    tree: &Forest,
    contents: &Contents,
    after: &After,
) -> Result<Vec<Frame>, AllocError>
    requires needs { IfSome after.now.frame (HasNeedsOf tree.now) }
    ensures { IfOk result (λ fs. fs.items ≡ frames_of code.now turns tree.now (map_of contents.now) after.now) }
{
    match &after.frame {
        Some(frame) => frames_before(alloc, code, turns, tree, contents, frame, calls_of(after)),
        None => Ok(Vec::new(alloc)),
    }
}

/// Behind its calls an operation goes on, where all were issued, and waits for nothing; else it is broken.
fn go_on(tree: &Forest, graph: &mut Waits, operation: &mut Operation, op: OpNumber, all: bool)
    requires begun { (knot_at graph.old.knots op.0).stage ≡ Begun }
    requires listing { IsListingOf tree.now graph.old.listing }
    ensures operation { operation.new ≡ record operation.old { wait = wait_term.Nothing; activity = activity_by all } }
    ensures graph { graph.new ≡ waiting_by all graph.old op.0 }
{
    operation.wait = Wait::Nothing;
    if all {
        operation.activity = Activity::Idle;
        wait_for_nothing(graph, tree, op);
    } else {
        operation.activity = Activity::Closing(Ending::Broken);
    }
}

/// Adds the children of an operation, for which there is room.
fn add_children(
    alloc: Global,
    operations: &mut Vec<Operation>,
    parent: OpNumber,
    frames: Vec<Frame>,
)
    requires room { vec_len operations.old + length frames.items ≤ vec_capacity operations.old }
    ensures { operations.new.items ≡ operations.old.items ++ map (called_by parent) frames.items }
{
    for frame in frames {
        operations.push_reserved(called_by(alloc, parent, frame));
    }
}

/// An operation that begins in a frame, called by another one.
pub fn called_by(alloc: Global, parent: OpNumber, frame: Frame) -> Operation
    ensures { result ≡ called_by parent frame }
{
    Operation {
        parent,
        children: Sequence::new(alloc),
        frame,
        parts: Sequence::new(alloc),
        said: Sequence::new(alloc),
        wait: Wait::Beginning,
        activity: Activity::Idle,
    }
}
