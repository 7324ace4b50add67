//! Frames of first tasks.

ghost use Rattle.std.specs.Prelude.{◌≡◌, map, IfOk};
ghost use Rattle.machine_terms.specs.Jobs.{first_frame, may_start};
ghost use Rattle.machine_terms.specs.declared.value.Value.TheVariants as value;

use crate::opening::opening_frame;
use machine_terms::{Frame, Value};
use plain_values::Sequence;
use std::alloc::{AllocError, Global};
use task_code::{Job, TaskCode};

/// Whether a job may start with a task.
pub fn may_start(job: &Job, task: &TaskCode) -> bool
    ensures { result ≡ may_start job.now task.now }
{
    task.needs.len() == 0
        && job.inputs.len() == task.params as usize
        && task.params as u32 <= task.slots
}

/// The frame of the first task: the inputs are its arguments.
pub fn first_frame(alloc: Global, job: &Job, task: &TaskCode) -> Result<Frame, AllocError>
    ensures { IfOk result (λ f. f ≡ first_frame job.now task.now) }
{
    let values = numbers(alloc, job.inputs.as_slice())?;
    let start = job.code.get().start;
    opening_frame(alloc, job.turns, 1, start, task, values)
}

fn numbers(alloc: Global, inputs: &[i64]) -> Result<Sequence<Value>, AllocError>
    ensures { IfOk result (λ vs. vs ≡ map value.Number inputs.now) }
{
    let mut values = Vec::new(alloc);
    for input in inputs {
        values.push(Value::Number(*input))?;
    }
    Ok(Sequence::from_vec(values))
}
