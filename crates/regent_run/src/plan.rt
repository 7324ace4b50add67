//! The plan of a run: an accepted program is compiled, with its arguments.

ghost use Rattle.std.specs.Prelude.{◌≡◌, ℤ, [], IfOk, List};
ghost use Rattle.check_rules.specs.Breaches.{breaches};
ghost use Rattle.code_laws.specs.Programs.{job_of};
ghost use Rattle.command_words.specs.Given.{run_given};
ghost use Rattle.expression_laws.specs.WrittenStatements.{AreWrittenTasks};
ghost use Rattle.regent_tree.specs.Limits.{WithinLimits};
ghost use Rattle.regent_tree.specs.PlainProgram.{tree_of};
ghost use Rattle.regent_run.specs.Verdicts.{JudgesRun};

use crate::inputs::numbers_of;
use crate::verdict::Verdict;
use check_rules::Accepted;
use code_gen::compile;
use command_words::{Run, turns_or_default, workers_or_default};
use plain_values::{Sequence, Shared};
use std::alloc::{AllocError, Global};
use task_code::Job;

/// A run to be made.
#[derive(Drop)]
pub struct Plan {
    pub job: Job,
    /// The requested number of workers.
    pub workers: u64,
    /// Whether the dump is to be written after the printed text.
    pub dumps: bool,
    /// Whether the trace is to be written.
    pub traces: bool,
}

/// The program's code, with these arguments and turns.
fn job_of(
    alloc: Global,
    program: &Accepted,
    inputs: Sequence<i64>,
    turns: u64,
) -> Result<Job, AllocError>
    ensures { IfOk result (λ job. job ≡ job_of (tree_of program.now) inputs turns) }
{
    let code = compile(alloc, program)?;
    Ok(Job {
        code: Shared::new(alloc, code)?,
        inputs,
        turns,
    })
}

/// The plan for an accepted program that is to be run, if the words are its arguments.
pub fn judge_run(alloc: Global, program: &Accepted, asked: &Run<'_>) -> Result<Plan, Verdict>
    requires within { WithinLimits (tree_of program.now) }
    requires sound { breaches (tree_of program.now) ≡ [] }
    requires written { AreWrittenTasks (tree_of program.now) }
    ensures { JudgesRun (tree_of program.now) (run_given asked.now) result }
{
    let Some(inputs) = numbers_of(alloc, program.inputs(), asked.numbers.as_slice())? else {
        return Err(Verdict::OtherInputs);
    };
    Ok(Plan {
        job: job_of(alloc, program, inputs, turns_or_default(asked.turns))?,
        workers: workers_or_default(asked.workers),
        dumps: asked.dump,
        traces: asked.trace,
    })
}
