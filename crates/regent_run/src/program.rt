//! The program: from the words of the operating system to a status.

ghost use Rattle.std.specs.Prelude.{◌≡◌, ◌↔◌, ◌⊎◌, IfErr, IfOk, IsErr};
ghost use Rattle.std.specs.IoError.{error_kind};
ghost use Rattle.command_words.specs.Given.{texts};
ghost use Rattle.regent_run.specs.Answers.{IsAnswered};
ghost use Rattle.regent_run.specs.Calls.{call_of, sink_change, source_change};
ghost use Rattle.regent_run.specs.Traces.{all_serve};
ghost use Rattle.regent_run.specs.Words.{AsksNoFile, request};

use crate::regent_run;
use parallel_run::{Gate, OpenGate};
use run_io::{FileSource, Sink, Source, StdSink};
use std::alloc::Global;
use std::env::{self, Env};
use std::io::{self, ErrorKind, Write};
use std::rt::Files;
use std::sync::Wait;
use std::thread::Threads;

/// The status if the words aren't available: 2 if one isn't text, else out of memory.
fn wordless_status(kind: ErrorKind) -> u8
    ensures not_text { (result ≡ 2) ↔ (kind ≡ ErrorKind.InvalidData) }
    ensures either { (result ≡ 2) ⊎ (result ≡ 7) }
{
    match kind {
        ErrorKind::InvalidData => 2,
        _ => 7,
    }
}

/// Executes the command in the words, if they are available, and returns the status.
pub fn regent_main<S: Source, K: Sink, E: Sink, G: Gate, R: Threads + Wait + Sync>(
    rt: &R,
    alloc: Global,
    words: io::Result<Vec<String>>,
    source: &mut S,
    out: &mut K,
    err: &mut E,
    gate: &G,
) -> u8
    // If they aren't, 2 means that one isn't text, and 7 that memory ran out. Nothing is begun,
    // read or written.
    ensures not_text { IfErr words (λ error. (result ≡ 2) ↔ (error_kind error ≡ ErrorKind.InvalidData)) }
    ensures no_memory { IfErr words (λ _. (result ≡ 2) ⊎ (result ≡ 7)) }
    ensures unread { IsErr words → source.new ≡ source.old }
    ensures unprinted { IsErr words → out.new ≡ out.old }
    ensures untold { IsErr words → err.new ≡ err.old }
    // Otherwise it is the call with these words.
    ensures answers { IfOk words (λ given. IsAnswered (call_of (texts given.items) all_serve
        (source_change S.Source source.old source.new)
        (sink_change K.Sink out.old out.new) (sink_change E.Sink err.old err.new)) result) }
    ensures untouched { IfOk words (λ given. AsksNoFile (request (texts given.items)) → source.new ≡ source.old) }
{
    match words {
        Ok(given) => regent_run(rt, alloc, &given, source, out, err, gate),
        Err(error) => wordless_status(error.kind()),
    }
}

/// The words of the command line.
fn words_of<R: Env + AllocGlobal>(rt: &R) -> io::Result<Vec<String>> {
    Ok(env::args(rt)?.collect(rt.alloc())?)
}

/// The program over the words of the command line and the files of the system, with these writers and an open gate.
pub fn regent_here<
    R: Env + Files + AllocGlobal + Threads + Wait + Sync,
    O: Write + Drop,
    W: Write + Drop,
>(rt: &R, out: O, err: W) -> u8 {
    let mut source = FileSource::new(rt);
    let mut out = StdSink::new(out);
    let mut err = StdSink::new(err);
    regent_main(
        rt,
        rt.alloc(),
        words_of(rt),
        &mut source,
        &mut out,
        &mut err,
        &OpenGate,
    )
}
