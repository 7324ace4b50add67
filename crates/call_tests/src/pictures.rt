//! Pictures that were drawn by hand, and calls whose source or sinks fail.

use crate::ends::{bytes_of, sink_of, source_of};
use run_io::{MemorySource, Source};
use run_journal::{Entry, JournalFault, journal_read};
use std::alloc::{AllocError, Global};
use std::test::Fail;
use trace_picture::{picture_text, view_trace};

/// A part of a picture.
#[derive(Clone, Copy)]
enum Part {
    FirstLine,
    /// What stands after the line that opens the picture itself.
    AfterLegend,
}

/// Traces, parts of their pictures, and the lines of these parts.
static PICTURES: [(&str, Part, &str); 4] = [
    (
        "",
        Part::AfterLegend,
        r##"<svg y="1em"><line class="grid" x2="0em"/><text class="side" x="-1em">0</text></svg>
<svg y="1em"><path class="line" d="M0 0"/></svg>
</svg>
</svg>
"##,
    ),
    (
        "claim 0 by 1\ncopy 0 by 1\nclaim 7 by 0\ngive 0 by 1\nback 7 by 0\nclaim 7 by 0\n",
        Part::AfterLegend,
        r##"<rect class="lane" y="0em" width="6em" height="2em"/><text class="side" x="-1em" y="1em">seat 0</text>
<svg y="9em"><line class="grid" x2="6em"/><text class="side" x="-1em">1</text></svg>
<rect class="lane" y="3em" width="6em" height="2em"/><text class="side" x="-1em" y="4em">seat 1</text>
<svg y="7em"><line class="grid" x2="6em"/><text class="side" x="-1em">2</text></svg>
<svg y="11em"><line class="grid" x2="6em"/><text class="side" x="-1em">0</text></svg>
<svg class="box" x="0em" y="3em" width="4em" height="2em"><title>operation 0 by seat 1: claim on line 1, give on line 4</title><rect class="given" width="100%" height="100%"/><text x="50%" y="50%">0</text></svg>
<svg class="box" x="2em" y="0em" width="3em" height="2em"><title>operation 7 by seat 0: claim on line 3, back on line 5</title><rect class="back" width="100%" height="100%"/><text x="50%" y="50%">7</text></svg>
<svg class="box" x="5em" y="0em" width="1em" height="2em"><title>operation 7 by seat 0: claim on line 6, without an end</title><rect class="unended" width="100%" height="100%"/><text x="50%" y="50%">7</text></svg>
<use href="#copy" x="1em" y="3em"><title>operation 0 by seat 1: copy on line 2</title></use>
<use href="#back" x="4em" y="0em"><title>operation 7 by seat 0: back on line 5</title></use>
<svg y="11em"><path class="line" d="M0 0v-20h10h10v-20h10v20h10v20h10v-20h10"/></svg>
</svg>
</svg>
"##,
    ),
    (
        "give 1 by 0\ngive 1 by 0\ngive 1 by 0\ngive 1 by 0\ngive 1 by 0\ngive 1 by 0\ngive 1 by 0\ngive 1 by 0\ngive 1 by 0\ngive 1 by 0\n",
        Part::AfterLegend,
        r##"<rect class="lane" y="0em" width="10em" height="2em"/><text class="side" x="-1em" y="1em">seat 0</text>
<svg y="4em"><line class="grid" x2="10em"/><text class="side" x="-1em">1</text></svg>
<svg y="6em"><line class="grid" x2="10em"/><text class="side" x="-1em">0</text></svg>
<svg x="10em"><line class="grid" y1="-1em" y2="6em"/><text class="tick" y="-1.5em">10</text></svg>
<svg y="6em"><path class="line" d="M0 0v20h10v20h10v20h10v20h10v20h10v20h10v20h10v20h10v20h10v20h10"/></svg>
</svg>
</svg>
"##,
    ),
    (
        "claim 0 by 3\n",
        Part::FirstLine,
        r##"<svg xmlns="http://www.w3.org/2000/svg" width="660" height="290" viewBox="0 0 660 290" font-size="10">"##,
    ),
];

/// How much of a picture an output holds.
#[derive(Clone, Copy)]
enum Much {
    Nothing,
    Cut,
    Whole,
}

/// The call of the source, of the output and of the error output that fails, 0 for none, and a
/// trace; and the status, how much of the picture the output has, and what the error output has.
static CALLS: [([u32; 3], &str, u8, Much, &str); 9] = [
    ([0, 0, 0], "claim 0 by 0\n", 0, Much::Whole, ""),
    (
        [2, 0, 0],
        "claim 0 by 0\n",
        3,
        Much::Nothing,
        "error: read failed\n",
    ),
    (
        [3, 0, 0],
        "claim 0 by 0\n",
        3,
        Much::Nothing,
        "error: read failed\n",
    ),
    ([0, 1, 0], "claim 0 by 0\n", 4, Much::Nothing, ""),
    ([0, 2, 0], "claim 0 by 0\n", 4, Much::Cut, ""),
    ([0, 0, 1], "claim 0 by 0\n", 0, Much::Whole, ""),
    (
        [0, 1, 0],
        "claim x\n",
        12,
        Much::Nothing,
        "error: journal line 1\n",
    ),
    (
        [0, 0, 0],
        "copy 0 by 0\nin order\n",
        12,
        Much::Nothing,
        "error: journal line 2\n",
    ),
    ([0, 0, 2], "in order\n", 4, Much::Nothing, "error: jou"),
];

fn part_of(text: &str, part: Part) -> Option<&str> {
    match part {
        Part::FirstLine => text.lines().next(),
        Part::AfterLegend => {
            let (_, rest) = text.split_once("<svg x=\"8em\" y=\"6em\">\n")?;
            Some(rest)
        }
    }
}

/// The picture of a trace.
fn drawn(alloc: Global, journal: Result<Vec<Entry>, JournalFault>) -> Result<String, JournalFault> {
    let journal = journal?;
    Ok(picture_text(alloc, journal.as_slice())?)
}

/// Whether this part of the picture of a trace is so.
fn has_part(alloc: Global, trace: &str, part: Part, wanted: &str) -> Result<bool, JournalFault> {
    let text = drawn(alloc, journal_read(alloc, trace.as_bytes()))?;
    Ok(part_of(text.as_str(), part) == Some(wanted))
}

#[test]
fn each_trace_has_its_picture(rt: HostRuntime) -> Result<(), Fail> {
    for (trace, part, wanted) in &PICTURES {
        assert!(&rt; has_part(rt.alloc(), trace, *part, wanted)?, "{trace}");
    }
    Ok(())
}

/// Whether an output holds so much of this picture.
fn holds(held: &[u8], much: Much, whole: &[u8]) -> bool {
    match much {
        Much::Nothing => held.is_empty(),
        Much::Cut => !held.is_empty() && held != whole,
        Much::Whole => held == whole,
    }
}

/// Whether a call over a source that is begun, and over sinks that take 1,000 and 10 bytes a write
/// and fail at these calls, has this status, leaves so much of this picture in the output, and
/// this text in the error output.
fn comes_out(
    alloc: Global,
    source: Result<MemorySource, AllocError>,
    fails: (u32, u32),
    whole: &[u8],
    wanted: (u8, Much, &str),
) -> Result<bool, AllocError> {
    let mut source = source?;
    let _ = source.begin(String::new(alloc));
    let mut out = sink_of(alloc, 10_000, 1000, fails.0)?;
    let mut err = sink_of(alloc, 100, 10, fails.1)?;
    let status = view_trace(alloc, &mut source, &mut out, &mut err);
    let (told, much, text) = wanted;
    Ok(status == told && holds(out.bytes(), much, whole) && err.bytes() == text.as_bytes())
}

/// Whether a call over this trace comes out so, where the source and the sinks fail at these
/// calls.
fn trace_comes_out(
    alloc: Global,
    trace: &str,
    fails: [u32; 3],
    whole: &[u8],
    wanted: (u8, Much, &str),
) -> Result<bool, AllocError> {
    let [source, out, err] = fails;
    let source = source_of(bytes_of(alloc, trace), Vec::from_slice(alloc, &[source]));
    comes_out(alloc, source, (out, err), whole, wanted)
}

#[test]
fn each_call_comes_to_its_status(rt: HostRuntime) -> Result<(), Fail> {
    let alloc = rt.alloc();
    let whole = drawn(alloc, journal_read(alloc, b"claim 0 by 0\n"))?;
    for (fails, trace, status, much, text) in &CALLS {
        let wanted = (*status, *much, *text);
        let is_so = trace_comes_out(alloc, trace, *fails, whole.as_bytes(), wanted)?;
        assert!(&rt; is_so, "calls {fails:?}: {trace}");
    }
    Ok(())
}

#[test]
fn long_traces(rt: HostRuntime) -> Result<(), AllocError> {
    let alloc = rt.alloc();
    for (bytes, status, text) in [
        (16_777_216, 12, "error: journal line 1\n"),
        (16_777_217, 8, "error: limit journal 16777216\n"),
    ] {
        let source = source_of(vec![in alloc; b'x'; bytes], Ok(Vec::new(alloc)));
        let wanted = (status, Much::Nothing, text);
        assert!(&rt; comes_out(alloc, source, (0, 0), &[], wanted)?, "{bytes}");
    }
    Ok(())
}
