//! The call that the program makes: from the words of the command line and a source to two sinks
//! and a status.
#![tactic(auto)]

ghost use Rattle.std.specs.Prelude.{◌≡◌};
ghost use Rattle.command_words.specs.Given.{texts};
ghost use Rattle.regent_run.specs.Answers.{IsAnswered};
ghost use Rattle.regent_run.specs.Calls.{call_of, sink_change, source_change};
ghost use Rattle.regent_run.specs.Traces.{all_serve, none_serve};
ghost use Rattle.regent_run.specs.Words.{AsksNoFile, request};

mod inputs;
mod judge;
mod laws;
mod limit;
mod plan;
mod program;
mod requests;
mod running;
mod served;
mod text;
mod verdict;

pub use laws::{accepted_texts_are_run, runs_come_to_an_end, texts_have_one_status};
use parallel_run::Gate;
pub use parallel_run::{Origin, Settled, settle_run};
pub use program::{regent_here, regent_main};
use run_io::{Sink, Source};
use served::{alone, with_workers};
use std::alloc::Global;
use std::sync::Wait;
use std::thread::Threads;

/// Executes the command in the words, and returns the status. Programs are run by as many workers
/// as the words name, by default 4, in threads of the runtime and through the gate; with 0 workers
/// they are run in order.
///
/// The words are those that `command_words` takes. The text is that which the source leaves when it
/// is begun by the file's name, or the sample with a number of colours. The statuses: 0 the program
/// finished or is accepted, 1 it faulted, 2 the words are refused, 3 the text can't be read, 4 a
/// write failed, 5 the text isn't a program, 6 the program violates a rule, 7 memory ran out, 8 the
/// text exceeds a limit, 9 the words aren't the program's arguments. The printed text, or
/// `accepted`, goes to `out`, and then the trace, if it is asked for, and the line of a fault, or
/// one line about an error, to `err`.
pub fn regent_run<S: Source, K: Sink, E: Sink, G: Gate, R: Threads + Wait + Sync>(
    rt: &R,
    alloc: Global,
    words: &Vec<String>,
    source: &mut S,
    out: &mut K,
    err: &mut E,
    gate: &G,
) -> u8
    // How the call ends, and its input and output: clause by clause in `IsAnswered`.
    ensures answers { IsAnswered (call_of (texts words.now.items) all_serve
        (source_change S.Source source.old source.new)
        (sink_change K.Sink out.old out.new) (sink_change E.Sink err.old err.new)) result }
    // If the words are refused, or ask for a sample, the source is unchanged.
    ensures untouched { AsksNoFile (request (texts words.now.items)) → source.new ≡ source.old }
{
    let verdict = with_workers(rt, alloc, words.as_slice(), source, gate);
    verdict.deliver(out, err)
}

/// The same without workers, whatever number the words name: it waits for nobody, and returns.
pub fn regent_alone<S: Source, K: Sink, E: Sink>(
    alloc: Global,
    words: &Vec<String>,
    source: &mut S,
    out: &mut K,
    err: &mut E,
) -> u8
    ensures answers { IsAnswered (call_of (texts words.now.items) none_serve
        (source_change S.Source source.old source.new)
        (sink_change K.Sink out.old out.new) (sink_change E.Sink err.old err.new)) result }
    ensures untouched { AsksNoFile (request (texts words.now.items)) → source.new ≡ source.old }
{
    let verdict = alone(alloc, words.as_slice(), source);
    verdict.deliver(out, err)
}
