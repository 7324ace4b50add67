//! A sink over a writer of std.

ghost use Rattle.std.specs.Prelude.{◌≡◌};

use crate::failed::Failed;
use crate::fault_count::FaultCount;
use crate::sink::Sink;
use std::io::Write;
use std::marker::Model;

/// A sink that flushes its writer after each write.
///
/// It counts its faults, a failed flush and a write of 0 bytes among them, and reports nothing
/// about the contents of the writer.
#[derive(Drop)]
pub struct StdSink<W: Write> {
    writer: W,
    faults: FaultCount,
}

impl<W: Write> Model for StdSink<W> {
    ghost use Rattle.run_io.specs.StdSink.{FlushedWriter};

    ghost Value = { FlushedWriter W };

    ghost view = { λ s. record { faults = s.faults; writer = s.writer } };
}

impl<W: Write> StdSink<W> {
    /// A sink over this writer.
    pub fn new(writer: W) -> Self
        ensures faults { result.faults ≡ 0 }
        ensures writer { result.writer ≡ writer }
    {
        StdSink {
            writer,
            faults: FaultCount::new(),
        }
    }
}

impl<W: Write> Sink for StdSink<W> {
    ghost use Rattle.std.specs.Prelude.{◌≡◌, ◌≤◌, ◌<◌, None, OnErr, OnOk, IfOk, length, take};
    ghost use Rattle.std.specs.Io.KnownBytes.{Appends};
    ghost use Rattle.run_io.specs.Faults.{HasCause, one_more};

    ghost faults = { λ s. s.faults };

    ghost held = { λ _. None };

    fn write(&mut self, buf: &[u8]) -> Result<usize, Failed>
        requires { 0 < length buf.now }
        ensures cause { HasCause self.old.faults self.new.faults result }
        ensures raised { OnErr result (self.new.faults ≡ one_more self.old.faults) }
        ensures steady { OnOk result (self.new.faults ≡ self.old.faults) }
        ensures some { IfOk result (λ n. 1 ≤ n) }
        ensures bound { IfOk result (λ n. n ≤ length buf.now) }
        ensures written { IfOk result (λ n. Appends (W.contents self.old.writer) (W.contents self.new.writer) (take n buf.now)) }
    {
        match self.writer.write(buf) {
            Ok(n) if n > 0 => match self.writer.flush() {
                Ok(()) => Ok(n),
                Err(_) => Err(self.faults.raise()),
            },
            _ => Err(self.faults.raise()),
        }
    }
}
