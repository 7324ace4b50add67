//! Outcomes of runs in order.

ghost use Rattle.std.specs.Prelude.{◌≡◌, [], map, IfOk};
ghost use Rattle.region_tree.specs.declared.tree.RootId.{RootId as root_id};
ghost use Rattle.machine_terms.specs.Contents.{image_in, image_of};
ghost use Rattle.machine_terms.specs.Jobs.{ending_of, first_frame, may_start, outcome, void_outcome};
ghost use Rattle.machine_terms.specs.declared.value.Value.TheVariants as value;

use crate::copies::copy_image;
use crate::frames::opening;
use machine_terms::{Contents, Ended, Frame, Root, Value};
use plain_values::Sequence;
use regent_tree::{Ending, Fault, Outcome, RootImage};
use region_tree::RootId;
use std::alloc::{AllocError, Global};
use task_code::{Job, TaskCode};

/// The outcome of a run by how its first task ended.
pub fn outcome(alloc: Global, ended: Ended) -> Result<Outcome, AllocError>
    ensures { IfOk result (λ o. o ≡ outcome ended) }
{
    match ended {
        Ended::CameBack {
            own,
            contents,
            text,
            ..
        } => Ok(Outcome {
            text,
            ending: Ending::Finished(images_of(alloc, own.as_slice(), &contents)?),
        }),
        Ended::Broke { fault, text } => Ok(Outcome {
            text,
            ending: ending_of(fault),
        }),
    }
}

fn ending_of(fault: Option<Fault>) -> Ending
    ensures { result ≡ ending_of fault }
{
    match fault {
        Some(fault) => Ending::Faulted(fault),
        None => Ending::Broken,
    }
}

/// What these roots hold.
fn images_of(
    alloc: Global,
    own: &[RootId],
    contents: &Contents,
) -> Result<Sequence<RootImage>, AllocError>
    ensures { IfOk result (λ images. images ≡ map (λ (r : root_id). image_of contents.now r.0) own.now) }
{
    let mut images = Vec::new(alloc);
    for id in own {
        images.push(image_in(alloc, contents.roots.as_slice(), *id)?)?;
    }
    Ok(Sequence::from_vec(images))
}

fn image_in(alloc: Global, roots: &[Root], root: RootId) -> Result<RootImage, AllocError>
    ensures { IfOk result (λ image. image ≡ image_in roots.now root.0) }
{
    for held in roots {
        if held.id.0 == root.0 {
            return copy_image(alloc, &held.image);
        }
    }
    Ok(RootImage {
        space: 0,
        count: 0,
        fields: Sequence::new(alloc),
    })
}

/// The outcome of a job without a task to start with.
pub fn void_outcome(alloc: Global) -> Outcome
    ensures { result ≡ void_outcome }
{
    Outcome {
        text: Sequence::new(alloc),
        ending: Ending::Broken,
    }
}

/// Whether a job may start with a task.
pub fn may_start(job: &Job, task: &TaskCode) -> bool
    ensures { result ≡ may_start job.now task.now }
{
    task.needs.len() == 0
        && job.inputs.len() == task.params as usize
        && task.params as u32 <= task.slots
}

/// The frame of the first task: the inputs are its arguments.
pub fn first_frame(alloc: Global, job: &Job, task: &TaskCode) -> Result<Frame, AllocError>
    ensures { IfOk result (λ f. f ≡ first_frame job.now task.now) }
{
    let values = numbers(alloc, job.inputs.as_slice())?;
    let start = job.code.get().start;
    opening(alloc, job.turns, 1, start, task, values)
}

fn numbers(alloc: Global, inputs: &[i64]) -> Result<Sequence<Value>, AllocError>
    ensures { IfOk result (λ vs. vs ≡ map value.Number inputs.now) }
{
    let mut values = Vec::new(alloc);
    for input in inputs {
        values.push(Value::Number(*input))?;
    }
    Ok(Sequence::from_vec(values))
}
