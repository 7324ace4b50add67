//! The call that the program makes: from a source of a trace to two sinks and a status.

ghost use Rattle.std.specs.Prelude.{◌≡◌, ◌≤◌, length};
ghost use Rattle.run_io.specs.Rest.{TakesAtMost};
ghost use Rattle.trace_picture.specs.Verdicts.{IsBadLine, IsShown, Judges, Says};
ghost use Rattle.trace_picture.specs.Views.{Ends, NothingButGood, change_of, trace_of};

use crate::picture::picture_text;
use crate::verdict::Verdict;
use run_io::{NoRest, Sink, Source, read_rest};
use run_journal::{Entry, JournalFault, journal_read};
use std::alloc::Global;

/// The most bytes that are read: one more than a trace may have.
const MOST_BYTES: usize = 16_777_217;

/// The verdict for a line that isn't a journal's.
fn bad_line(alloc: Global, line: u64) -> Verdict
    ensures { IsBadLine line result }
{
    match format!(in alloc; "error: journal line {line}\n") {
        Ok(message) => Verdict::BadLine { message },
        Err(_) => Verdict::NoMemory,
    }
}

/// The verdict on a journal.
fn shown(alloc: Global, journal: &[Entry]) -> Verdict
    ensures { IsShown journal.now result }
{
    match picture_text(alloc, journal) {
        Ok(picture) => Verdict::Shown { picture },
        Err(_) => Verdict::NoMemory,
    }
}

/// The verdict on a text.
fn judge_text(alloc: Global, text: &[u8]) -> Verdict
    ensures { Judges text.now result }
{
    if text.len() >= MOST_BYTES {
        return Verdict::TooLong;
    }
    match journal_read(alloc, text) {
        Ok(journal) => shown(alloc, journal.as_slice()),
        Err(JournalFault::BadLine { line }) => bad_line(alloc, line),
        Err(JournalFault::Memory(_)) => Verdict::NoMemory,
    }
}

/// The verdict on the text that a source has left.
fn judge<S: Source>(alloc: Global, source: &mut S) -> Verdict
    ensures says { Says (trace_of (S.left source.old) (S.faults source.old) (S.faults source.new)) result }
    ensures takes { TakesAtMost 16777217 (S.left source.old) (S.left source.new) }
{
    match read_rest(alloc, source, MOST_BYTES) {
        Ok(text) => judge_text(alloc, text.as_slice()),
        Err(NoRest::Failed) => Verdict::Unread,
        Err(NoRest::Memory) => Verdict::NoMemory,
    }
}

/// Reads a trace, writes its picture to the output, and returns the status.
///
/// The trace is what the source has left. The statuses: 0 the picture was written, 3 the trace
/// can't be read, 4 a write failed, 7 memory ran out, 8 the trace has more than 16,777,216 bytes,
/// 12 it has a line that isn't a journal's. An error is reported by one line on the error output,
/// and then nothing is written to the output.
pub fn view_trace<S: Source, K: Sink, E: Sink>(
    alloc: Global,
    source: &mut S,
    out: &mut K,
    err: &mut E,
) -> u8
    ensures ends { Ends (trace_of (S.left source.old) (S.faults source.old) (S.faults source.new))
        (change_of K.Sink out.old out.new) (change_of E.Sink err.old err.new) result }
    ensures nothing_but_good { NothingButGood (S.left source.old) (change_of K.Sink out.old out.new) }
    ensures takes { TakesAtMost 16777217 (S.left source.old) (S.left source.new) }
{
    let verdict = judge(alloc, source);
    verdict.deliver(out, err)
}
