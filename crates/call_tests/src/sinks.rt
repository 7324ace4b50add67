//! Sinks with room and without, over memory and over writers, and each place where a write can
//! fail.

use crate::ends::sink_of;
use run_io::{MemorySink, StdSink, put_all};
use std::alloc::{AllocError, Global};
use std::io::{self, ErrorKind, Write};

/// Whether a sink in memory holds these bytes after a text was to be put into it, of which all is
/// put or not.
fn memory_holds(
    sink: Result<MemorySink, AllocError>,
    text: &str,
    held: &str,
    whole: bool,
) -> Result<bool, AllocError> {
    let mut sink = sink?;
    let is_put = put_all(&mut sink, text.as_bytes()).is_ok();
    Ok(is_put == whole && sink.bytes() == held.as_bytes())
}

/// A writer that takes 2 bytes at most, and fails by plan.
#[derive(Drop)]
struct Balky {
    taken: Vec<u8>,
    writes: u32,
    refused: u32,
    empty: u32,
    unflushed: u32,
}

impl Write for Balky {
    fn write(&mut self, buf: &[u8]) -> io::Result<usize> {
        self.writes = self.writes.saturating_add(1);
        if self.writes == self.refused {
            return Err(io::Error::from(ErrorKind::BrokenPipe));
        }
        if self.writes == self.empty {
            return Ok(0);
        }
        let n = buf.len().min(2);
        self.taken.extend_from_slice(&buf[..n])?;
        Ok(n)
    }

    fn flush(&mut self) -> io::Result<()> {
        if self.writes == self.unflushed {
            return Err(io::Error::from(ErrorKind::BrokenPipe));
        }
        Ok(())
    }
}

/// Whether such a writer holds these bytes after a text was to be put into it.
fn writer_holds(mut writer: Balky, text: &str, held: &str, whole: bool) -> bool {
    let is_put = put_all(&mut StdSink::new(&mut writer), text.as_bytes()).is_ok();
    is_put == whole && writer.taken.as_slice() == held.as_bytes()
}

/// What a sink writes to.
#[derive(Clone, Copy, Debug)]
enum Target {
    /// Memory: the room, the bytes a write, and the write that fails.
    Memory(usize, usize, u32),
    /// A writer: the writes that are refused, empty and not flushed.
    Writer(u32, u32, u32),
}

/// Whether such a sink holds these bytes after a text was to be put into it.
fn target_holds(
    alloc: Global,
    target: Target,
    text: &str,
    held: &str,
    whole: bool,
) -> Result<bool, AllocError> {
    match target {
        Target::Memory(room, step, fails) => {
            memory_holds(sink_of(alloc, room, step, fails), text, held, whole)
        }
        Target::Writer(refused, empty, unflushed) => {
            let writer = Balky {
                taken: Vec::new(alloc),
                writes: 0,
                refused,
                empty,
                unflushed,
            };
            Ok(writer_holds(writer, text, held, whole))
        }
    }
}

/// Sinks, the text that is put into them, what they hold then, and whether all is put.
static SINKS: [(Target, &str, &str, bool); 14] = [
    (Target::Memory(100, 1, 2), "7 8 9", "7", false),
    (Target::Memory(100, 100, 0), "7 8 9", "7 8 9", true),
    (Target::Memory(5, 1, 0), "7 8 9", "7 8 9", true),
    (Target::Memory(4, 3, 0), "7 8 9", "7 8 ", false),
    (Target::Memory(0, 3, 0), "7 8 9", "", false),
    (Target::Memory(5, 0, 0), "7 8 9", "", false),
    (Target::Memory(5, 2, 1), "7 8 9", "", false),
    (Target::Memory(5, 2, 3), "7 8 9", "7 8 ", false),
    (Target::Memory(5, 2, 4), "7 8 9", "7 8 9", true),
    (Target::Writer(0, 0, 0), "abcde", "abcde", true),
    (Target::Writer(4, 4, 4), "abcde", "abcde", true),
    (Target::Writer(2, 0, 0), "abcde", "ab", false),
    (Target::Writer(0, 3, 0), "abcde", "abcd", false),
    (Target::Writer(0, 0, 2), "abcde", "abcd", false),
];

#[test]
fn a_sink_holds_what_is_put_up_to_a_fault(rt: HostRuntime) -> Result<(), AllocError> {
    for (target, text, held, whole) in &SINKS {
        let holds = target_holds(rt.alloc(), *target, text, held, *whole)?;
        assert!(rt; holds, "{held} in {target:?}");
    }
    Ok(())
}

/// With no listed call, a step and enough room it is proved that no write fails.
#[test]
fn a_memory_sink_with_room_has_no_fault(rt: HostRuntime) -> Result<(), AllocError> {
    let mut sink = MemorySink::new(rt.alloc(), 8, 3, Vec::new(rt.alloc()))?;
    let first = put_all(&mut sink, b"none").is_ok();
    prove!(first);
    let second = put_all(&mut sink, b"fail").is_ok();
    prove!(second);
    assert_eq!(rt; sink.bytes(), b"nonefail".as_slice());
    Ok(())
}

#[test]
fn std_sinks_put_all(rt: HostRuntime) {
    let out = put_all(&mut StdSink::new(rt.stdout()), b"out\n").is_ok();
    let err = put_all(&mut StdSink::new(rt.stderr()), b"err\n").is_ok();
    let printed = put_all(&mut StdSink::new(io::writer(&rt)), b"printed\n").is_ok();
    assert_eq!(rt; [out, err, printed], [true; 3]);
}
