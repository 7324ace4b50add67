//! Each public call with ample memory, and each place where a call can fail.

use crate::ends::{bytes_of, sink_of, source_of};
use run_io::{Failed, FileSource, MemorySource, NoRest, Source, StdSource, SureSource, read_rest};
use std::alloc::{AllocError, Global};
use std::fs;
use std::io::{self, ErrorKind, Read};

/// Whether a source begins by a name.
fn begins<S: Source>(source: &mut S, name: Result<String, AllocError>) -> Result<bool, AllocError> {
    Ok(source.begin(name?).is_ok())
}

/// Reads 2 bytes after what was seen, and a failed call as `!`; whether the source is at its end.
fn read_once<S: Source>(source: &mut S, seen: &mut Vec<u8>) -> Result<bool, AllocError> {
    let mut buf = [0u8; 2];
    match source.read(&mut buf) {
        Ok(0) => return Ok(true),
        Ok(n) => seen.extend_from_slice(&buf[..n])?,
        Err(Failed) => seen.push(b'!')?,
    }
    Ok(false)
}

/// Begins the source by a name, and reads it to its end by reads of 2 bytes, after what was seen.
/// A failed call is written as `!`.
fn read_through<S: Source>(
    alloc: Global,
    source: &mut S,
    seen: &mut Vec<u8>,
) -> Result<(), AllocError> {
    if !begins(source, String::from_str(alloc, "a.rg"))? {
        seen.push(b'!')?;
    }
    for _ in 0..10 {
        if read_once(source, seen)? {
            break;
        }
    }
    Ok(())
}

/// Whether two rounds over a source have this text, with a `/` between them.
fn gives<S: Source>(alloc: Global, source: &mut S, wanted: &str) -> Result<bool, AllocError> {
    let mut seen = Vec::new(alloc);
    read_through(alloc, source, &mut seen)?;
    seen.push(b'/')?;
    read_through(alloc, source, &mut seen)?;
    Ok(seen.as_slice() == wanted.as_bytes())
}

/// Whether two rounds over a source in memory have this text.
fn memory_gives(
    alloc: Global,
    source: Result<MemorySource, AllocError>,
    wanted: &str,
) -> Result<bool, AllocError> {
    let mut source = source?;
    gives(alloc, &mut source, wanted)
}

/// Whether a source has no byte.
fn is_empty<S: Source>(source: &mut S) -> bool {
    let mut buf = [0u8; 2];
    source.read(&mut buf) == Ok(0)
}

/// Whether a source of these bytes that fails at no call has none before it is begun, and then
/// this text in two rounds.
fn sure_gives(
    alloc: Global,
    bytes: Result<Vec<u8>, AllocError>,
    wanted: &str,
) -> Result<bool, AllocError> {
    let mut source = SureSource::new(bytes?);
    Ok(is_empty(&mut source) && gives(alloc, &mut source, wanted)?)
}

/// A reader of `abc` by 2 bytes at most, which fails once when it has given so many.
#[derive(Drop)]
struct Halting {
    given: usize,
    halt: usize,
    failed: bool,
}

impl Read for Halting {
    fn read(&mut self, buf: &mut [u8]) -> io::Result<usize> {
        if self.given == self.halt && !self.failed {
            self.failed = true;
            return Err(io::Error::from(ErrorKind::BrokenPipe));
        }
        let text = b"abc";
        let at = self.given.min(3);
        let n = buf.len().min(2).min(3 - at);
        buf[..n].copy_from_slice(&text[at..at + n]);
        self.given = at + n;
        Ok(n)
    }
}

/// Whether two rounds over such a reader have this text.
fn reader_gives(alloc: Global, halt: usize, wanted: &str) -> Result<bool, AllocError> {
    let reader = Halting {
        given: 0,
        halt,
        failed: false,
    };
    gives(alloc, &mut StdSource::new(reader), wanted)
}

/// What a source reads from.
#[derive(Clone, Copy, Debug)]
enum Origin {
    /// Five bytes in memory, with two calls that fail; 0 for none.
    Memory([u32; 2]),
    /// Five bytes, with no call that fails.
    Sure,
    /// Three bytes of a reader that fails once when it has given so many.
    Reader(usize),
}

/// Whether two rounds over such a source have this text.
fn origin_gives(alloc: Global, origin: Origin, wanted: &str) -> Result<bool, AllocError> {
    let bytes = bytes_of(alloc, "abcde");
    match origin {
        Origin::Memory(fails) => memory_gives(
            alloc,
            source_of(bytes, Vec::from_slice(alloc, &fails)),
            wanted,
        ),
        Origin::Sure => sure_gives(alloc, bytes, wanted),
        Origin::Reader(halt) => reader_gives(alloc, halt, wanted),
    }
}

/// Sources, and what two rounds over them have.
static SOURCES: [(Origin, &str); 16] = [
    (Origin::Memory([0, 0]), "abcde/"),
    (Origin::Memory([1, 0]), "!/abcde"),
    (Origin::Memory([2, 0]), "!abcde/"),
    (Origin::Memory([3, 0]), "ab!cde/"),
    (Origin::Memory([4, 0]), "abcd!e/"),
    (Origin::Memory([5, 0]), "abcde!/"),
    (Origin::Memory([6, 0]), "abcde/!"),
    (Origin::Memory([7, 0]), "abcde/!"),
    (Origin::Memory([1, 3]), "!/!"),
    (Origin::Memory([4, 3]), "ab!!cde/"),
    (Origin::Memory([4, 4]), "abcd!e/"),
    (Origin::Sure, "abcde/"),
    (Origin::Reader(9), "abc/"),
    (Origin::Reader(0), "!abc/"),
    (Origin::Reader(2), "ab!c/"),
    (Origin::Reader(3), "abc!/"),
];

#[test]
fn a_source_fails_exactly_at_its_calls(rt: HostRuntime) -> Result<(), AllocError> {
    for (origin, wanted) in &SOURCES {
        assert!(rt;
            origin_gives(rt.alloc(), *origin, wanted)?,
            "{wanted} of {origin:?}"
        );
    }
    Ok(())
}

/// Whether a source begins by a name as told, and a read of it then has this answer.
fn begins_so<S: Source>(
    source: &mut S,
    name: Result<String, AllocError>,
    begun: bool,
    read: Result<usize, Failed>,
) -> Result<bool, AllocError> {
    let is_begun = begins(source, name)?;
    let mut buf = [0u8; 2];
    Ok(source.read(&mut buf) == read && is_begun == begun)
}

/// Whether a source has no byte before it is begun, nor by the name of no file, then reads the
/// file, and keeps it where there is no other. A folder opens, and can't be read.
fn reads_files<S: Source>(alloc: Global, source: &mut S) -> Result<[bool; 5], AllocError> {
    let none = "none.rg";
    let unbegun = is_empty(source);
    let missing = begins_so(source, String::from_str(alloc, none), false, Ok(0))?;
    let file = gives(alloc, source, "abc/abc")?;
    let kept = begins_so(source, String::from_str(alloc, none), false, Ok(0))?;
    let folder = begins_so(source, String::from_str(alloc, "."), true, Err(Failed))?;
    Ok([unbegun, missing, file, kept, folder])
}

#[test]
fn a_file_source_reads_the_named_file(rt: HostRuntime) -> io::Result<()> {
    fs::write(&rt, "a.rg", "abc")?;
    let read = reads_files(rt.alloc(), &mut FileSource::new(&rt))?;
    fs::remove_file(&rt, "a.rg")?;
    assert_eq!(rt; read, [true; 5]);
    Ok(())
}

/// How many bytes are had of what is left of a source, at most so many; none for a failed call.
fn had(alloc: Global, source: &mut MemorySource, most: usize) -> Result<Option<usize>, AllocError> {
    match read_rest(alloc, source, most) {
        Ok(text) => Ok(Some(text.len())),
        Err(NoRest::Failed) => Ok(None),
        Err(NoRest::Memory) => Err(AllocError),
    }
}

/// Whether a source begins, and, where so many bytes are read of it, how many are had, and how
/// many are left then.
fn rest_of(
    alloc: Global,
    source: Result<MemorySource, AllocError>,
    most: usize,
) -> Result<(bool, Option<usize>, usize), AllocError> {
    let mut source = source?;
    let begun = source.begin(String::new(alloc)).is_ok();
    let first = had(alloc, &mut source, most)?;
    let left = had(alloc, &mut source, 10_000)?;
    Ok((begun, first, left.unwrap_or(0)))
}

/// The failing call of a source of 5,000 bytes, and how many are read at most, had, and left then.
static RESTS: [(u32, usize, Option<usize>, usize); 8] = [
    (0, 10_000, Some(5000), 0),
    (0, 5000, Some(5000), 0),
    (0, 4999, Some(4999), 1),
    (0, 0, Some(0), 5000),
    (2, 10_000, None, 5000),
    (3, 10_000, None, 904),
    (4, 10_000, None, 0),
    (4, 5000, Some(5000), 0),
];

#[test]
fn the_rest_of_a_source_is_read_up_to_a_bound(rt: HostRuntime) -> Result<(), AllocError> {
    let alloc = rt.alloc();
    for (fails, most, first, left) in &RESTS {
        let fails = Vec::from_slice(alloc, &[*fails]);
        let rest = rest_of(alloc, source_of(vec![in alloc; b'a'; 5000], fails), *most)?;
        assert_eq!(rt; rest, (true, *first, *left), "{most} bytes");
    }
    Ok(())
}
