//! The frames in which called tasks begin.

ghost use Rattle.std.specs.Prelude.{◌≡◌, IfOk, Some, slice_get};
ghost use Rattle.board_calls.specs.Calls.{HasNeedsOf, caller_in, frames_in, place};
ghost use Rattle.board_terms.specs.Calls.{opens};
ghost use Rattle.physical_instances.specs.Kept.{map_of};

use crate::checking::are_declared;
use machine_terms::{CallOut, Frame, Value};
use physical_instances::Contents;
use plain_values::Sequence;
use region_forest::Forest;
use region_tree::within;
use std::alloc::{AllocError, Global};
use task_code::{Code, TaskCode};
use task_frames::opening_frame;

/// The frame in which a call begins. None where the call may not be issued: its task isn't there or has fewer slots than
/// the call has arguments, a declared need has no region or field, or the needs aren't within those of the caller. A depth
/// above the 255th counts as a want of memory.
pub fn call(
    alloc: Global,
    code: &Code,
    turns: u64,
    tree: &Forest,
    contents: &Contents,
    caller: &Frame,
    call: &CallOut,
) -> Result<Option<Frame>, AllocError>
    requires needs { HasNeedsOf tree.now caller.now }
    ensures { IfOk result (λ f. f ≡ opens code.now turns (place tree.now (map_of contents.now)) (caller_in caller.now) call.now
        (slice_get code.now.tasks call.now.task)) }
{
    match code.tasks.as_slice().get(call.task as usize) {
        Some(task) => open(alloc, code, turns, tree, contents, caller, call, task),
        None => Ok(None),
    }
}

/// The frame in which a call of a task begins, if it may be issued.
fn open(
    alloc: Global,
    code: &Code,
    turns: u64,
    tree: &Forest,
    contents: &Contents,
    caller: &Frame,
    call: &CallOut,
    task: &TaskCode,
) -> Result<Option<Frame>, AllocError>
    requires needs { HasNeedsOf tree.now caller.now }
    ensures { IfOk result (λ f. f ≡ opens code.now turns (place tree.now (map_of contents.now)) (caller_in caller.now) call.now
        (Some task.now)) }
{
    let values = call.args.as_slice();
    let declared = are_declared(tree, contents, task.needs.as_slice(), values);
    if values.len() > task.slots as usize || !declared {
        return Ok(None);
    }
    let Some(depth) = caller.depth.checked_add(1) else {
        return Err(AllocError);
    };
    let args = copy_values(alloc, values)?;
    let frame = opening_frame(alloc, turns, depth, call.task, task, args)?;
    if within(tree.tree(), &frame.needs, &caller.needs) {
        Ok(Some(frame))
    } else {
        Ok(None)
    }
}

fn copy_values(alloc: Global, values: &[Value]) -> Result<Sequence<Value>, AllocError>
    ensures { IfOk result (λ vs. vs ≡ values.now) }
{
    let mut copy = Vec::new(alloc);
    for value in values {
        copy.push(value.copy()?)?;
    }
    Ok(Sequence::from_vec(copy))
}

/// The frames of the calls before the first that may not be issued.
pub fn frames_before(
    alloc: Global,
    code: &Code,
    turns: u64,
    tree: &Forest,
    contents: &Contents,
    caller: &Frame,
    calls: &[CallOut],
) -> Result<Vec<Frame>, AllocError>
    requires needs { HasNeedsOf tree.now caller.now }
    ensures { IfOk result (λ fs. fs.items ≡ frames_in code.now turns tree.now (map_of contents.now) caller.now calls.now) }
{
    let mut frames = Vec::new(alloc);
    for next in calls {
        match call(alloc, code, turns, tree, contents, caller, next)? {
            Some(frame) => frames.push(frame)?,
            None => return Ok(frames),
        }
    }
    Ok(frames)
}
