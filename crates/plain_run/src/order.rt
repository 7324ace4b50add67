//! The run in order.

ghost use Rattle.std.specs.Prelude.{◌≡◌, [], slice_get, Some, IfOk};
ghost use Rattle.machine_terms.specs.Jobs.{order_run, run_first};
ghost use Rattle.machine_terms.specs.Orders.{after_call, before_of, call_all, call_task, enough_segments, run_segments, runs};
ghost use Rattle.machine_terms.specs.Segments.{segment};
ghost use Rattle.machine_terms.specs.declared.order.Contents.{Contents as contents};
ghost use Rattle.plain_run.specs.Answers.{resume_after_by, resume_by};
ghost use Rattle.plain_run.specs.Nexts.{resumed_as};
ghost use Rattle.plain_store.specs.Loans.{Follows, Stands, whole};

use crate::answers::Answers;
use crate::calls::{after_call, child_of};
use crate::instances::{await_child, begun, broke, conclude, give_all, keep_answers, make};
use crate::outcomes::{first_frame, may_start, outcome, void_outcome};
use crate::segments::run_one;
use machine_terms::{CallOut, Ended, Frame, Instance, Yield};
use plain_store::{Holder, fetch_part, no_contents};
use plain_values::Sequence;
use regent_tree::Outcome;
use std::alloc::{AllocError, Global};
use task_code::{Code, Job, TaskCode};

/// Runs a job in order: a task instance runs from segment to segment, and each call runs whole where it
/// is made.
pub fn run_in_order(alloc: Global, job: &Job) -> Result<Outcome, AllocError>
    ensures { IfOk result (λ o. o ≡ order_run job.now) }
{
    let code = job.code.get();
    match code.tasks.as_slice().get(code.start as usize) {
        Some(task) => run_first(alloc, job, task),
        None => Ok(void_outcome(alloc)),
    }
}

/// Runs a job that starts with a task. A call nests no more than 64 task instances.
fn run_first(alloc: Global, job: &Job, task: &TaskCode) -> Result<Outcome, AllocError>
    ensures { IfOk result (λ o. o ≡ run_first job.now (Some task.now)) }
{
    if !may_start(job, task) {
        return Ok(void_outcome(alloc));
    }
    let frame = first_frame(alloc, job, task)?;
    let mut first = begun(alloc, frame, Sequence::new(alloc), no_contents(alloc));
    let ended = runs(alloc, job.code.get(), job.turns, 64, &mut first)?;
    outcome(alloc, ended)
}

/// Runs an instance that holds no part, below which so many calls may nest.
#[cycle(run)]
fn runs(
    alloc: Global,
    code: &Code,
    turns: u64,
    levels: u8,
    holder: &mut Holder,
) -> Result<Ended, AllocError>
    requires { holder.old.loans ≡ [] }
    ensures { IfOk result (λ e. e ≡ runs code.now turns levels holder.old.instance) }
{
    if levels == 0 {
        return Ok(broke(alloc, None, &mut holder.instance));
    }
    let count = enough_segments(code, &holder.instance.frame)?;
    run_segments(alloc, code, turns, levels - 1, count, holder)
}

/// More segments than an instance has. What can't be counted counts as out of memory.
fn enough_segments(code: &Code, frame: &Frame) -> Result<u128, AllocError>
    ensures { IfOk result (λ n. n ≡ enough_segments code.now frame.now) }
{
    let lines = match code.tasks.as_slice().get(frame.task as usize) {
        Some(task) => task.body.len(),
        None => 0,
    };
    let turns = frame.turns as u128 + 1;
    let places = lines as u128 + 1;
    let steps = turns.checked_mul(places).ok_or(AllocError)?;
    let twice = steps.checked_mul(4).ok_or(AllocError)?;
    twice.checked_add(2).ok_or(AllocError)
}

/// Runs an instance for at most so many segments. Of the values of its children those are kept that it may ask for.
#[cycle(run)]
fn run_segments(
    alloc: Global,
    code: &Code,
    turns: u64,
    below: u8,
    count: u128,
    holder: &mut Holder,
) -> Result<Ended, AllocError>
    requires { holder.old.loans ≡ [] }
    ensures { IfOk result (λ e. e
        ≡ run_segments code.now turns (runs code.now turns below) count holder.old.instance) }
{
    let mut answers = Answers::new(alloc);
    let mut left = count;
    while left > 0 {
        keep_answers(alloc, &mut holder.instance, &mut answers)?;
        if let Some(ended) = next_segment(alloc, code, turns, below, &answers, holder)? {
            return Ok(ended);
        }
        left -= 1;
    }
    Ok(broke(alloc, None, &mut holder.instance))
}

/// Runs an instance for one segment, and for what the segment stops for.
#[cycle(run)]
fn next_segment(
    alloc: Global,
    code: &Code,
    turns: u64,
    below: u8,
    answers: &Answers,
    holder: &mut Holder,
) -> Result<Option<Ended>, AllocError>
    ensures { IfOk result (λ over. (c : contents) → Stands c holder.old → Follows over holder.new
        (resume_after_by answers.now.kept code.now turns (runs code.now turns below)
        (segment (before_of code.now holder.old.instance)) (whole c holder.old))) }
{
    let (goes_on, ends) = run_one(alloc, code, &mut holder.instance)?;
    if goes_on {
        resume(alloc, code, turns, below, answers, ends, holder)
    } else {
        Ok(Some(conclude(alloc, ends, holder)?))
    }
}

/// Does what an instance waits for.
#[cycle(run)]
fn resume(
    alloc: Global,
    code: &Code,
    turns: u64,
    below: u8,
    answers: &Answers,
    ends: Yield,
    holder: &mut Holder,
) -> Result<Option<Ended>, AllocError>
    ensures { IfOk result (λ over. (c : contents) → Stands c holder.old → Follows over holder.new
        (resume_by answers.now.kept code.now turns (runs code.now turns below) ends
        (whole c holder.old))) }
{
    match ends {
        Yield::Calls(calls) => {
            give_all(alloc, holder)?;
            call_all(alloc, code, turns, below, calls, &mut holder.instance)
        }
        Yield::Want { root, field } => {
            fetch_part(alloc, code, root, field, holder)?;
            Ok(None)
        }
        Yield::Await(child) => {
            await_child(alloc, child, answers, &mut holder.instance)?;
            Ok(None)
        }
        Yield::Make(made) => make(alloc, code, made, &mut holder.instance),
        Yield::End(_) | Yield::Fault(_) | Yield::MachineFault => {
            Ok(Some(broke(alloc, None, &mut holder.instance)))
        }
    }
}

/// Makes calls, of which each runs whole before the next one, until one ends the run.
#[cycle(run)]
fn call_all(
    alloc: Global,
    code: &Code,
    turns: u64,
    below: u8,
    calls: Sequence<CallOut>,
    instance: &mut Instance,
) -> Result<Option<Ended>, AllocError>
    ensures { IfOk result (λ over. resumed_as over instance.new
        ≡ call_all code.now turns (runs code.now turns below) calls instance.old) }
{
    for call in calls.into_vec() {
        if let Some(ended) = call_task(alloc, code, turns, below, call, instance)? {
            return Ok(Some(ended));
        }
    }
    Ok(None)
}

/// Makes a call.
#[cycle(run)]
fn call_task(
    alloc: Global,
    code: &Code,
    turns: u64,
    below: u8,
    call: CallOut,
    instance: &mut Instance,
) -> Result<Option<Ended>, AllocError>
    ensures { IfOk result (λ over. resumed_as over instance.new ≡ call_task code.now turns
        (runs code.now turns below) call (slice_get code.now.tasks call.task) instance.old) }
{
    match child_of(alloc, code, turns, call, instance)? {
        Some(child) => run_child(alloc, code, turns, below, child, instance),
        None => Ok(Some(broke(alloc, None, instance))),
    }
}

/// Runs a child of an instance, and goes on in the instance.
#[cycle(run)]
fn run_child(
    alloc: Global,
    code: &Code,
    turns: u64,
    below: u8,
    child: Holder,
    instance: &mut Instance,
) -> Result<Option<Ended>, AllocError>
    requires { child.loans ≡ [] }
    ensures { IfOk result (λ over. resumed_as over instance.new
        ≡ after_call (runs code.now turns below child.instance) instance.old) }
{
    let mut holder = child;
    let ended = runs(alloc, code, turns, below, &mut holder)?;
    after_call(alloc, ended, instance)
}
