//! Calls that an instance makes.

ghost use Rattle.std.specs.Prelude.{◌≡◌, [], suc, slice_get, IfOk, IfSome};
ghost use Rattle.machine_terms.specs.Opening.{opening, requirements_on};
ghost use Rattle.machine_terms.specs.Orders.{Runner as runner, after_call, call_task, result_of};
ghost use Rattle.plain_run.specs.Nexts.{called, needed, resumed_as};

use crate::frames::opening;
use crate::instances::{begun, broke};
use machine_terms::{CallOut, Ended, Frame, Instance};
use plain_store::{Holder, closed, no_contents, requirements_on};
use plain_values::Sequence;
use region_tree::{Required, are_within};
use std::alloc::{AllocError, Global};
use std::mem;
use task_code::{Code, TaskCode};

/// The instance in which a call runs, which is given what the roots hold; none where the call breaks the run: its
/// task isn't there or has too few slots for its arguments, or it needs more than its caller.
pub fn child_of(
    alloc: Global,
    code: &Code,
    turns: u64,
    call: CallOut,
    caller: &mut Instance,
) -> Result<Option<Holder>, AllocError>
    ensures loans { IfOk result (λ child. IfSome child (λ h. h.loans ≡ [])) }
    ensures called { IfOk result (λ child. (run : runner) → called run child caller.new
        ≡ call_task code.now turns run call (slice_get code.now.tasks call.task) caller.old) }
{
    let Some(task) = code.tasks.as_slice().get(call.task as usize) else {
        return Ok(None);
    };
    if call.args.len() > task.slots as usize {
        return Ok(None);
    }
    let Some(needs) = needs_of(alloc, code, task, &call, caller)? else {
        return Ok(None);
    };
    let frame = frame_of(alloc, turns, task, call, caller)?;
    let contents = mem::replace(&mut caller.contents, no_contents(alloc));
    Ok(Some(begun(alloc, frame, needs, contents)))
}

/// What a call needs of the roots of its caller, if that is within what the caller needs.
fn needs_of(
    alloc: Global,
    code: &Code,
    task: &TaskCode,
    call: &CallOut,
    caller: &Instance,
) -> Result<Option<Sequence<Required>>, AllocError>
    ensures { IfOk result (λ rs. rs ≡ needed (requirements_on code.now caller.now.contents
        task.now.needs call.now.args) caller.now.needs) }
{
    let values = call.args.as_slice();
    let needs = requirements_on(alloc, code, &caller.contents, task.needs.as_slice(), values)?;
    match needs {
        Some(needs) if are_within(needs.as_slice(), caller.needs.as_slice()) => Ok(Some(needs)),
        _ => Ok(None),
    }
}

/// The frame in which a call begins. A depth above the 255th counts as out of memory.
fn frame_of(
    alloc: Global,
    turns: u64,
    task: &TaskCode,
    call: CallOut,
    caller: &Instance,
) -> Result<Frame, AllocError>
    ensures { IfOk result (λ f. f
        ≡ opening turns (suc caller.now.frame.depth) call.task task.now call.args) }
{
    let CallOut { task: number, args } = call;
    match caller.frame.depth.checked_add(1) {
        Some(depth) => opening(alloc, turns, depth, number, task, args),
        None => Err(AllocError),
    }
}

/// What follows in an instance after a call that it made.
pub fn after_call(
    alloc: Global,
    ended: Ended,
    instance: &mut Instance,
) -> Result<Option<Ended>, AllocError>
    ensures { IfOk result (λ over. resumed_as over instance.new ≡ after_call ended instance.old) }
{
    match ended {
        Ended::CameBack {
            value,
            own,
            contents,
            text,
        } => {
            instance.contents = closed(own.as_slice(), contents);
            instance.results.push(result_of(value))?;
            instance.text.extend(text.as_slice())?;
            Ok(None)
        }
        Ended::Broke { fault, text } => {
            instance.text.extend(text.as_slice())?;
            Ok(Some(broke(alloc, fault, instance)))
        }
    }
}

/// A result that isn't there counts as 0.
fn result_of(value: Option<i64>) -> i64
    ensures { result ≡ result_of value }
{
    match value {
        Some(number) => number,
        None => 0,
    }
}
