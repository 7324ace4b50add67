//! A source over a reader of std.

ghost use Rattle.std.specs.Prelude.{◌≡◌};

use crate::failed::Failed;
use crate::fault_count::FaultCount;
use crate::source::Source;
use std::io::Read;
use std::marker::Model;

/// A source of its reader's bytes, by whichever name it is begun.
///
/// It counts its faults, and reports nothing about the contents of the reader.
#[derive(Drop)]
pub struct StdSource<R: Read> {
    reader: R,
    faults: FaultCount,
}

impl<R: Read> Model for StdSource<R> {
    ghost use Rattle.run_io.specs.StdSource.{CountedReader};

    ghost Value = { CountedReader R };

    ghost view = { λ s. record { faults = s.faults; reader = s.reader } };
}

impl<R: Read> StdSource<R> {
    /// A source of this reader's bytes.
    pub fn new(reader: R) -> Self
        ensures faults { result.faults ≡ 0 }
        ensures reader { result.reader ≡ reader }
    {
        StdSource {
            reader,
            faults: FaultCount::new(),
        }
    }
}

impl<R: Read> Source for StdSource<R> {
    ghost use Rattle.std.specs.Prelude.{◌≡◌, ◌≤◌, ◌<◌, None, IsOk, OnErr, OnOk, IfOk, length};
    ghost use Rattle.std.specs.Io.KnownBytes.{ReadConsumes};
    ghost use Rattle.run_io.specs.Faults.{HasCause, one_more};

    ghost faults = { λ s. s.faults };

    ghost left = { λ _. None };

    ghost later = { λ _. None };

    ghost begins = { λ _. None };

    ghost names = { λ _. None };

    /// Does nothing: the reader continues at its position.
    fn begin(&mut self, _name: String) -> Result<(), Failed>
        ensures ok { IsOk result }
        ensures same { self.new ≡ self.old }
    {
        Ok(())
    }

    fn read(&mut self, buf: &mut [u8]) -> Result<usize, Failed>
        requires { 0 < length buf.old }
        ensures cause { HasCause self.old.faults self.new.faults result }
        ensures raised { OnErr result (self.new.faults ≡ one_more self.old.faults) }
        ensures steady { OnOk result (self.new.faults ≡ self.old.faults) }
        ensures bound { IfOk result (λ n. n ≤ length buf.new) }
        ensures read { ReadConsumes (R.remaining self.old.reader) (R.remaining self.new.reader) result buf.new }
    {
        match self.reader.read(buf) {
            Ok(n) => Ok(n),
            Err(_) => Err(self.faults.raise()),
        }
    }
}
