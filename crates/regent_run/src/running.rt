//! Planned runs, by workers or in order, and the verdicts on them.

ghost use Rattle.std.specs.Prelude.{◌≡◌, ◌<◌, ◌≤◌, ◌↔◌, ◌++◌, ℕ, IfOk, List, Some, true};
ghost use Rattle.code_laws.specs.AcceptedPrograms.{IsEnded};
ghost use Rattle.machine_terms.specs.Jobs.{order_run};
ghost use Rattle.parallel_run.specs.Runs.{outcome_of};
ghost use Rattle.regent_tree.specs.declared.outcome.RootImage.{RootImage};
ghost use Rattle.run_report.specs.Dumps.{fits_spaces, roots_of};
ghost use Rattle.run_report.specs.FaultLines.{fault_text};
ghost use Rattle.regent_run.specs.Programs.{faulted_with, finished_with};
ghost use Rattle.regent_run.specs.Texts.{dump_by};
ghost use Rattle.regent_run.specs.Traces.{all_serve, none_serve, trace_by};
ghost use Rattle.regent_run.specs.Verdicts.{IsOfOutcome, IsSound, TellsPlan};

use crate::plan::Plan;
use crate::verdict::Verdict;
use command_words::MOST_WORKERS;
use parallel_run::{Gate, Ran, run_job};
use plain_run::run_in_order;
use plain_values::Sequence;
use regent_tree::{Ending, Fault, Outcome};
use run_report::{dump_text, fault_text};
use std::alloc::{AllocError, Global};
use std::sync::Wait;
use std::thread::Threads;
use task_code::Code;

/// The dump of the roots at the end of a run, if it is asked for.
fn dump_by(
    alloc: Global,
    dumps: bool,
    code: &Code,
    outcome: &Outcome,
) -> Result<Vec<u8>, AllocError>
    requires { fits_spaces code.now outcome.now ≡ true }
    ensures { IfOk result (λ dump.
        dump.items ≡ dump_by dumps code.now.spaces (roots_of outcome.now.ending)) }
{
    if dumps {
        dump_text(alloc, code, outcome)
    } else {
        Ok(Vec::new(alloc))
    }
}

/// The trace of a run, if it is asked for.
fn trace_by(alloc: Global, traces: bool, ran: &Ran) -> Result<Vec<u8>, AllocError>
    ensures { IfOk result (λ trace. trace.items ≡ trace_by traces ran.now) }
{
    if traces {
        ran.trace_text(alloc)
    } else {
        Ok(Vec::new(alloc))
    }
}

/// The trace, and the line of the fault.
fn fault_message(alloc: Global, fault: &Fault, trace: Vec<u8>) -> Result<Vec<u8>, AllocError>
    ensures { IfOk result (λ message. message.items ≡ trace.items ++ fault_text fault.now) }
{
    let mut message = trace;
    message.extend_from_slice(fault_text(alloc, fault)?.as_slice())?;
    Ok(message)
}

/// The verdict on a program that printed this and faulted.
fn faulted(
    alloc: Global,
    text: &Sequence<u8>,
    fault: &Fault,
    trace: Vec<u8>,
) -> Result<Verdict, AllocError>
    ensures { IfOk result (λ v. (dump : List ℕ) →
        IsOfOutcome (faulted_with text.now fault.now) dump trace.items v) }
{
    Ok(Verdict::Faulted {
        text: text.copy()?,
        message: fault_message(alloc, fault, trace)?,
    })
}

/// The verdict on a program that printed this and finished, with this dump.
fn finished(text: &Sequence<u8>, dump: &[u8], trace: Vec<u8>) -> Result<Verdict, AllocError>
    ensures { IfOk result (λ v. (roots : List RootImage) →
        IsOfOutcome (finished_with text.now roots) dump.now trace.items v) }
{
    let mut text = text.copy()?;
    text.extend(dump)?;
    Ok(Verdict::Finished { text, trace })
}

/// The verdict on a program whose run has this outcome, this dump and this trace.
fn ended(
    alloc: Global,
    outcome: &Outcome,
    dump: &[u8],
    trace: Vec<u8>,
) -> Result<Verdict, AllocError>
    requires { IsEnded outcome.now.ending }
    ensures { IfOk result (IsOfOutcome outcome.now dump.now trace.items) }
{
    match &outcome.ending {
        Ending::Finished(_) => finished(&outcome.text, dump, trace),
        Ending::Faulted(fault) => faulted(alloc, &outcome.text, fault, trace),
        Ending::Broken => unreachable!(),
    }
}

/// The verdict on a planned run that is done.
fn settled(alloc: Global, plan: &Plan, ran: &Ran) -> Result<Verdict, AllocError>
    requires sound { IsSound plan.now }
    requires outcome { outcome_of ran.now ≡ Some (order_run plan.now.job) }
    ensures { IfOk result (IsOfOutcome (order_run plan.now.job)
        (dump_by plan.now.dumps plan.now.job.code.spaces (roots_of (order_run plan.now.job).ending))
        (trace_by plan.now.traces ran.now)) }
{
    let Some(outcome) = ran.outcome() else {
        unreachable!()
    };
    let dump = dump_by(alloc, plan.dumps, plan.job.code.get(), outcome)?;
    let trace = trace_by(alloc, plan.traces, ran)?;
    ended(alloc, outcome, dump.as_slice(), trace)
}

/// As many seats as requested workers, but at most 64.
fn seats_for(workers: u64) -> u16
    ensures few { workers < 64 → result ≡ workers }
    ensures most { 64 ≤ workers → result ≡ 64 }
    ensures none { (result ≡ 0) ↔ (workers ≡ 0) }
{
    if workers < MOST_WORKERS {
        workers as u16
    } else {
        64
    }
}

/// Makes a planned run by as many workers as requested, but at most 64.
pub fn run_by_workers<G: Gate, R: Threads + Wait + Sync>(
    rt: &R,
    alloc: Global,
    plan: &Plan,
    gate: &G,
) -> Result<Verdict, AllocError>
    requires { IsSound plan.now }
    ensures { IfOk result (TellsPlan all_serve plan.now) }
{
    let ran = run_job(rt, alloc, &plan.job, seats_for(plan.workers), gate)?;
    settled(alloc, plan, &ran)
}

/// Makes a planned run in order, whatever number of workers is requested.
pub fn run_alone(alloc: Global, plan: &Plan) -> Result<Verdict, AllocError>
    requires { IsSound plan.now }
    ensures { IfOk result (TellsPlan none_serve plan.now) }
{
    let ran = Ran::InOrder(run_in_order(alloc, &plan.job)?);
    settled(alloc, plan, &ran)
}
