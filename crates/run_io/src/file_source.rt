//! A source over a file of the system.

ghost use Rattle.std.specs.Prelude.{◌≡◌, None};

use crate::failed::Failed;
use crate::fault_count::FaultCount;
use crate::source::Source;
use std::fs;
use std::io::Read;
use std::marker::Model;
use std::rt::Files;

/// A source that opens the named file when it is begun.
///
/// It counts its faults, and reports nothing about the contents of a file.
#[derive(Drop)]
pub struct FileSource<'a, R: Files> {
    rt: &'a R,
    file: Option<R::File>,
    faults: FaultCount,
}

impl<'a, R: Files> Model for FileSource<'a, R> {
    ghost use Rattle.run_io.specs.FileSource.{OpenedFile};

    ghost Value = { OpenedFile R.File };

    ghost view = { λ s. record { faults = s.faults; file = s.file } };
}

impl<'a, R: Files> FileSource<'a, R> {
    /// A source without a file.
    pub fn new(rt: &'a R) -> Self
        ensures faults { result.faults ≡ 0 }
        ensures file { result.file ≡ None }
    {
        FileSource {
            rt,
            file: None,
            faults: FaultCount::new(),
        }
    }
}

impl<R: Files> Source for FileSource<'_, R> {
    ghost use Rattle.std.specs.Prelude.{◌≡◌, ◌≤◌, ◌<◌, None, Ok, IfNone, IfSome, IsSome, is_some, OnErr, OnOk, IfOk, length};
    ghost use Rattle.std.specs.Io.KnownBytes.{ReadConsumes};
    ghost use Rattle.run_io.specs.Faults.{HasCause, one_more};

    ghost faults = { λ s. s.faults };

    ghost left = { λ _. None };

    ghost later = { λ _. None };

    ghost begins = { λ _. None };

    ghost names = { λ _. None };

    /// Opens the file of that name. If that fails, a file that was open stays.
    fn begin(&mut self, name: String) -> Result<(), Failed>
        ensures cause { HasCause self.old.faults self.new.faults result }
        ensures raised { OnErr result (self.new.faults ≡ one_more self.old.faults) }
        ensures steady { OnOk result (self.new.faults ≡ self.old.faults) }
        ensures opened { OnOk result (IsSome self.new.file) }
        ensures err { OnErr result (self.new.file ≡ self.old.file) }
    {
        match fs::open(self.rt, name.as_str()) {
            Ok(file) => {
                self.file = Some(file);
                Ok(())
            }
            Err(_) => Err(self.faults.raise()),
        }
    }

    fn read(&mut self, buf: &mut [u8]) -> Result<usize, Failed>
        requires { 0 < length buf.old }
        ensures cause { HasCause self.old.faults self.new.faults result }
        ensures raised { OnErr result (self.new.faults ≡ one_more self.old.faults) }
        ensures steady { OnOk result (self.new.faults ≡ self.old.faults) }
        ensures bound { IfOk result (λ n. n ≤ length buf.new) }
        ensures before_begin { IfNone self.old.file (result ≡ Ok 0) }
        ensures file { is_some self.new.file ≡ is_some self.old.file }
        ensures read { IfSome self.old.file (λ old. IfSome self.new.file (λ new.
            ReadConsumes (R.File.remaining old) (R.File.remaining new) result buf.new)) }
    {
        let Some(file) = &mut self.file else {
            return Ok(0);
        };
        match file.read(buf) {
            Ok(n) => Ok(n),
            Err(_) => Err(self.faults.raise()),
        }
    }
}
