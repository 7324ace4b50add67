//! Bytes in memory that become available with the first begin.

ghost use Rattle.std.specs.Prelude.{◌≡◌, ◌<◌, ◌++◌, [], ◌∷◌, length, min, take, drop, string_bytes};
ghost use Rattle.run_io.specs.Faults.{one_more};
ghost use Rattle.run_io.specs.Source.{next_left, after_next, with_name};

use crate::names::Names;
use std::marker::Model;

/// Bytes, of which those from `at` on are left, and the begins so far.
#[derive(Drop)]
pub(crate) struct Feed {
    bytes: Vec<u8>,
    at: usize,
    begun: bool,
    begins: u64,
    names: Names,
}

impl Model for Feed {
    ghost use Rattle.std.specs.Prelude.{◌≡◌, ◌≤◌, ◌<◌, [], ◌∷◌, true, false, drop, vec_len, if◌then◌else◌};
    ghost use Rattle.run_io.specs.Told.{Told};
    ghost use Rattle.run_io.specs.Names.{names_of};

    ghost Value = { Told };

    ghost view = { λ s. record {
      left = drop s.at s.bytes.items;
      later = if s.begun then [] else s.bytes.items ∷ [];
      begins = s.begins;
      names = names_of s.names;
    } };

    // If it has not begun, nothing is left; if it has, a begin was counted.
    ghost invariant = { λ s. record {
      within : s.at ≤ vec_len s.bytes;
      not_begun : s.begun ≡ false → s.at ≡ vec_len s.bytes;
      begun : s.begun ≡ true → 0 < s.begins;
    } };
}

impl Feed {
    pub(crate) fn new(bytes: Vec<u8>) -> Self
        ensures left { result.left ≡ [] }
        ensures later { result.later ≡ bytes.items ∷ [] }
        ensures begins { result.begins ≡ 0 }
        ensures names { result.names ≡ [] }
    {
        let at = bytes.len();
        Feed {
            bytes,
            at,
            begun: false,
            begins: 0,
            names: Names::Nothing,
        }
    }

    /// Counts a begin with its name.
    pub(crate) fn count_begin(&mut self, name: String)
        ensures begins { self.new.begins ≡ one_more self.old.begins }
        ensures names { self.new.names ≡ with_name (string_bytes name) self.old.names }
        ensures left { self.new.left ≡ self.old.left }
        ensures later { self.new.later ≡ self.old.later }
    {
        self.begins = self.begins.saturating_add(1);
        self.names.note(name);
    }

    /// Makes available what the counted begin promised.
    pub(crate) fn open(&mut self)
        requires { 0 < self.old.begins }
        ensures left { self.new.left ≡ next_left self.old.later }
        ensures later { self.new.later ≡ after_next self.old.later }
        ensures begins { self.new.begins ≡ self.old.begins }
        ensures names { self.new.names ≡ self.old.names }
    {
        self.at = if self.begun { self.bytes.len() } else { 0 };
        self.begun = true;
    }

    /// Moves as many bytes as are left and the buffer can take.
    pub(crate) fn move_into(&mut self, buf: &mut [u8]) -> usize
        ensures count { result ≡ min (length buf.old) (length self.old.left) }
        ensures moved { buf.new ≡ take result self.old.left ++ drop result buf.old }
        ensures left { self.new.left ≡ drop result self.old.left }
        ensures later { self.new.later ≡ self.old.later }
        ensures begins { self.new.begins ≡ self.old.begins }
        ensures names { self.new.names ≡ self.old.names }
        ensures before_begin { self.old.begins ≡ 0 → self.old.left ≡ [] }
    {
        let rest = &self.bytes[self.at..];
        let n = rest.len().min(buf.len());
        buf[..n].copy_from_slice(&rest[..n]);
        self.at += n;
        n
    }
}
