//! What segments are run from.

ghost use Rattle.std.specs.Prelude.{◌≡◌, ◌↔◌, [], IfOk, IsTrue};

use crate::frames::is_same_frame;
use crate::same::are_same;
use machine_terms::Before;
use plain_values::{Sequence, Shared};
use std::alloc::{AllocError, Global};
use task_code::{Code, Job};

/// Whether segments are run from the same code, frame and parts.
pub fn is_same_before(alloc: Global, before: &Before, other: &Before) -> Result<bool, AllocError>
    ensures { IfOk result (λ same. IsTrue same ↔ (before.now ≡ other.now)) }
{
    if !are_same(before.parts.as_slice(), other.parts.as_slice()) {
        return Ok(false);
    }
    if !is_same_frame(alloc, &before.frame, &other.frame)? {
        return Ok(false);
    }
    let job = job_of(alloc, &before.code)?;
    Ok(job.same(&job_of(alloc, &other.code)?))
}

/// A job of code, which is compared by that.
fn job_of(alloc: Global, code: &Shared<Code>) -> Result<Job, AllocError>
    ensures { IfOk result (λ job. job ≡ record { code = code.now; inputs = []; turns = 0 }) }
{
    Ok(Job {
        code: code.share()?,
        inputs: Sequence::new(alloc),
        turns: 0,
    })
}
