//! From words and a source to a verdict: without a run, or that of the planned run.

ghost use Rattle.std.specs.Prelude.{◌≡◌, Err};
ghost use Rattle.command_words.specs.Given.{texts};
ghost use Rattle.regent_run.specs.Calls.{source_change};
ghost use Rattle.regent_run.specs.Reading.{UsesSource};
ghost use Rattle.regent_run.specs.Traces.{all_serve, none_serve};
ghost use Rattle.regent_run.specs.Verdicts.{Tells};
ghost use Rattle.regent_run.specs.Words.{AsksNoFile, request};

use crate::judge::judge;
use crate::running::{run_alone, run_by_workers};
use crate::verdict::Verdict;
use parallel_run::Gate;
use run_io::Source;
use std::alloc::Global;
use std::sync::Wait;
use std::thread::Threads;

/// The verdict for the words and the source, with workers.
pub fn with_workers<S: Source, G: Gate, R: Threads + Wait + Sync>(
    rt: &R,
    alloc: Global,
    words: &[String],
    source: &mut S,
    gate: &G,
) -> Verdict
    ensures untouched { AsksNoFile (request (texts words.now)) → source.new ≡ source.old }
    ensures told { Tells all_serve (request (texts words.now)) (S.later source.old)
        (S.faults source.old) (S.faults source.new) result }
    ensures uses { UsesSource (request (texts words.now)) (source_change S.Source source.old source.new) (Err result) }
{
    let plan = match judge(alloc, words, source) {
        Ok(plan) => plan,
        Err(verdict) => return verdict,
    };
    match run_by_workers(rt, alloc, &plan, gate) {
        Ok(verdict) => verdict,
        Err(_) => Verdict::NoMemory,
    }
}

/// The same without workers.
pub fn alone<S: Source>(alloc: Global, words: &[String], source: &mut S) -> Verdict
    ensures untouched { AsksNoFile (request (texts words.now)) → source.new ≡ source.old }
    ensures told { Tells none_serve (request (texts words.now)) (S.later source.old)
        (S.faults source.old) (S.faults source.new) result }
    ensures uses { UsesSource (request (texts words.now)) (source_change S.Source source.old source.new) (Err result) }
{
    let plan = match judge(alloc, words, source) {
        Ok(plan) => plan,
        Err(verdict) => return verdict,
    };
    match run_alone(alloc, &plan) {
        Ok(verdict) => verdict,
        Err(_) => Verdict::NoMemory,
    }
}
