//! Whole calls with workers and alone, over sources and sinks that fail, with long texts, and
//! words that can't be had.

use crate::ends::{bytes_of, sink_of, source_of};
use regent_run::{regent_alone, regent_main, regent_run};
use region_tree::OpNumber;
use run_io::{MemorySink, MemorySource};
use std::alloc::{AllocError, Global};
use std::io::{self, ErrorKind};
use std::sync::Wait;
use std::thread::Threads;
use worker_gate::{OpenGate, PairGate};

const FIRST: &str = r#"import "regent"

task main()
  var x : int64 = 3
  x = x * 2 + 1
  regentlib.c.printf("%lld\n", x)
end

regentlib.start(main)
"#;

const FAULTED: &str = r#"task main()
  regentlib.c.printf("a")
  regentlib.assert(false, "no")
end
"#;

/// Two tasks that write parts of one region which share no point.
const PAIR: &str = "fspace f { x : int64 }
task w(r : region(ispace(int1d), f)) where writes(r.x) do
  for p in r do p.x = 5 end
end
task main()
  var r = region(ispace(int1d, 4), f)
  var p = partition(equal, r, ispace(int1d, 2))
  w(p[0])
  w(p[1])
  var sum : int64 = 0
  for q in r do sum += q.x end
  regentlib.c.printf(\"%lld\", sum)
end
";

/// Two tasks whose results are stored in variables.
const RESULTS: &str = "fspace f { x : int64 }
task sum(r : region(ispace(int1d), f)) : int64 where reads(r.x) do
  var s : int64 = 0
  for e in r do s += e.x end
  return s
end
task main()
  var r = region(ispace(int1d, 4), f)
  fill(r.x, 5)
  var p = partition(equal, r, ispace(int1d, 2))
  var a = sum(p[0])
  var b = sum(p[1])
  regentlib.c.printf(\"%lld\", a + b)
end
";

/// Whose call it is.
#[derive(Clone, Copy, Debug)]
enum Call {
    /// The program's, with its words.
    Main,
    /// The program's, with words that can't be had.
    Wordless(ErrorKind),
    /// One that nobody serves.
    Alone,
}

const RUN: &str = "regent run first.rg";

const UNREAD: &str = "error: read failed\n";

/// A call, its words and its text; the failing calls of the source, the output and the error
/// output, 0 for none; and the status, the output and the error output.
static CALLS: [(Call, &str, &str, [u32; 3], u8, &str, &str); 22] = [
    // Each call of the source may fail,
    (Call::Main, RUN, FIRST, [1, 0, 0], 3, "", UNREAD),
    (Call::Main, RUN, FIRST, [2, 0, 0], 3, "", UNREAD),
    (Call::Main, RUN, FIRST, [3, 0, 0], 3, "", UNREAD),
    (Call::Main, RUN, FIRST, [4, 0, 0], 0, "7\n", ""),
    // each write,
    (Call::Main, RUN, FIRST, [0, 1, 0], 4, "", ""),
    (Call::Main, RUN, FIRST, [0, 2, 0], 4, "7", ""),
    (Call::Main, RUN, FIRST, [0, 3, 0], 0, "7\n", ""),
    (Call::Main, RUN, FIRST, [0, 0, 1], 0, "7\n", ""),
    // each write after the output,
    (
        Call::Main,
        RUN,
        FAULTED,
        [0, 0, 0],
        1,
        "a",
        "fault: AssertFailed at line 3\n",
    ),
    (Call::Main, RUN, FAULTED, [0, 1, 0], 4, "", ""),
    (Call::Main, RUN, FAULTED, [0, 0, 1], 4, "a", ""),
    (Call::Main, RUN, FAULTED, [0, 0, 2], 4, "a", "f"),
    // each write of an error line, and the words.
    (Call::Main, RUN, "task", [0, 1, 1], 4, "", ""),
    (Call::Main, RUN, "task", [0, 1, 2], 4, "", "e"),
    (
        Call::Main,
        RUN,
        "task",
        [0, 1, 22],
        4,
        "",
        "error: syntax at line",
    ),
    (
        Call::Main,
        RUN,
        "task",
        [0, 1, 24],
        4,
        "",
        "error: syntax at line 1",
    ),
    (
        Call::Wordless(ErrorKind::InvalidData),
        "",
        FIRST,
        [0, 0, 0],
        2,
        "",
        "",
    ),
    (
        Call::Wordless(ErrorKind::OutOfMemory),
        "",
        FIRST,
        [0, 0, 0],
        7,
        "",
        "",
    ),
    // Nobody serves a call alone.
    (
        Call::Alone,
        "regent run --workers 4 --trace pair.rg",
        PAIR,
        [0, 0, 0],
        0,
        "20",
        "in order\n",
    ),
    (
        Call::Alone,
        "regent run pair.rg",
        PAIR,
        [0, 0, 0],
        0,
        "20",
        "",
    ),
    (
        Call::Alone,
        "regent check pair.rg",
        PAIR,
        [0, 0, 0],
        0,
        "accepted\n",
        "",
    ),
    (
        Call::Alone,
        "regent run --workers 65 pair.rg",
        PAIR,
        [0, 0, 0],
        2,
        "",
        "error: usage\n",
    ),
];

/// The words of a line.
fn words_of(alloc: Global, line: &str) -> io::Result<Vec<String>> {
    let mut words = Vec::new(alloc);
    for word in line.split_whitespace() {
        words.push(String::from_str(alloc, word)?)?;
    }
    Ok(words)
}

/// The status of a call that nobody serves; that of no memory where its words couldn't be made.
fn alone(
    alloc: Global,
    words: io::Result<Vec<String>>,
    source: &mut MemorySource,
    out: &mut MemorySink,
    err: &mut MemorySink,
) -> u8 {
    match words {
        Ok(words) => regent_alone(alloc, &words, source, out, err),
        Err(_) => 7,
    }
}

/// The status of a call with the words of a line.
fn status_of<R: Threads + Wait + Sync>(
    rt: &R,
    alloc: Global,
    call: Call,
    line: &str,
    source: &mut MemorySource,
    out: &mut MemorySink,
    err: &mut MemorySink,
) -> u8 {
    let words = match call {
        Call::Alone => return alone(alloc, words_of(alloc, line), source, out, err),
        Call::Main => words_of(alloc, line),
        Call::Wordless(kind) => Err(io::Error::from(kind)),
    };
    regent_main(rt, alloc, words, source, out, err, &OpenGate)
}

/// What a call leaves: its status, its output and its error output.
type Left<'a> = (u8, &'a str, &'a str);

/// Whether a call with the words of a line leaves this, where the sinks fail at these writes. They
/// take a byte a write.
fn leaves<R: Threads + Wait + Sync>(
    rt: &R,
    alloc: Global,
    (call, line): (Call, &str),
    source: Result<MemorySource, AllocError>,
    fails: (u32, u32),
    (told, output, error): Left<'_>,
) -> Result<bool, AllocError> {
    let mut source = source?;
    let mut out = sink_of(alloc, 100, 1, fails.0)?;
    let mut err = sink_of(alloc, 100, 1, fails.1)?;
    let status = status_of(rt, alloc, call, line, &mut source, &mut out, &mut err);
    Ok(status == told && out.bytes() == output.as_bytes() && err.bytes() == error.as_bytes())
}

/// Whether a call over this text leaves this, where its source and its sinks fail at these calls.
fn text_leaves<R: Threads + Wait + Sync>(
    rt: &R,
    alloc: Global,
    call: (Call, &str),
    text: &str,
    [source, out, err]: [u32; 3],
    left: Left<'_>,
) -> Result<bool, AllocError> {
    let source = source_of(bytes_of(alloc, text), Vec::from_slice(alloc, &[source]));
    leaves(rt, alloc, call, source, (out, err), left)
}

#[test]
fn each_call_comes_to_its_status(rt: HostRuntime) -> Result<(), AllocError> {
    let alloc = rt.alloc();
    for (call, line, text, fails, status, output, error) in &CALLS {
        let left = (*status, *output, *error);
        let is_so = text_leaves(&rt, alloc, (*call, *line), text, *fails, left)?;
        assert!(rt; is_so, "{line} over {text}, calls {fails:?}");
    }
    Ok(())
}

/// The program without statements after a comment, in so many bytes.
fn long(alloc: Global, bytes: usize) -> Result<Vec<u8>, AllocError> {
    let end = b"\ntask main() end";
    let mut text = vec![in alloc; b'-'; bytes.saturating_sub(end.len())]?;
    text.extend_from_slice(end)?;
    Ok(text)
}

#[test]
fn long_texts(rt: HostRuntime) -> Result<(), AllocError> {
    let alloc = rt.alloc();
    for (bytes, status, error) in [
        (1_048_576, 0, ""),
        (1_048_577, 8, "error: limit text 1048576\n"),
    ] {
        let source = source_of(long(alloc, bytes), Ok(Vec::new(alloc)));
        let left = (status, "", error);
        let is_so = leaves(&rt, alloc, (Call::Main, RUN), source, (0, 0), left)?;
        assert!(rt; is_so, "{bytes}");
    }
    Ok(())
}

/// Whether a line of the trace stands before the gives of the first two operations that are
/// called.
fn stands_before_gives(trace: &str, line: &str) -> bool {
    let gives = (trace.find("\ngive 1 "), trace.find("\ngive 2 "));
    match (trace.find(line), gives) {
        (Some(at), (Some(first), Some(second))) => at < first && at < second,
        _ => false,
    }
}

/// Whether each of the first two claims stands there.
fn two_stand_before_gives(trace: &[u8]) -> bool {
    match str::from_utf8(trace) {
        Ok(trace) => {
            stands_before_gives(trace, "\nclaim 1 ") && stands_before_gives(trace, "\nclaim 2 ")
        }
        Err(_) => false,
    }
}

/// Whether two workers that run these words over this source meet, and end without a fault.
fn two_meet<R: Threads + Wait + Sync>(
    rt: &R,
    alloc: Global,
    words: io::Result<Vec<String>>,
    source: Result<MemorySource, AllocError>,
    out: &mut MemorySink,
    err: &mut MemorySink,
) -> io::Result<bool> {
    let words = words?;
    let mut source = source?;
    let gate = PairGate::new(OpNumber(1), OpNumber(2), 100_000_000);
    let status = regent_run(rt, alloc, &words, &mut source, out, err, &gate);
    Ok(status == 0 && gate.met())
}

/// Whether the two tasks of a text run at the same time, and whether its output and its trace are as they must be.
fn two_run<R: Threads + Wait + Sync>(rt: &R, alloc: Global, text: &str) -> io::Result<[bool; 3]> {
    let mut out = sink_of(alloc, 100, 1, 0)?;
    let mut err = sink_of(alloc, 10_000, 10_000, 0)?;
    let words = words_of(alloc, "regent run --workers 2 --trace pair.rg");
    let source = source_of(bytes_of(alloc, text), Ok(Vec::new(alloc)));
    let met = two_meet(rt, alloc, words, source, &mut out, &mut err)?;
    Ok([
        met,
        out.bytes() == b"20".as_slice(),
        two_stand_before_gives(err.bytes()),
    ])
}

#[test]
fn two_tasks_run_at_one_time(rt: HostRuntime) -> io::Result<()> {
    for text in [PAIR, RESULTS] {
        assert_eq!(rt; two_run(&rt, rt.alloc(), text)?, [true; 3], "{text}");
    }
    Ok(())
}
