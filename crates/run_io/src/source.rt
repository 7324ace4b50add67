//! Sources of bytes.

ghost use Rattle.std.specs.Prelude.{◌≡◌, ◌≤◌, ◌<◌, ◌↔◌, ℕ, List, [], Option, Some, OnErr, OnOk, IfOk, IfSome, length, take, drop, option_map, string_bytes};
ghost use Rattle.run_io.specs.Faults.{HasCause, one_more};
ghost use Rattle.run_io.specs.Source.{Moves, next_left, after_next, with_name};

use crate::failed::Failed;

/// A source of bytes. Reads move what the last begin made available.
///
/// A source reports what it has left, how often it was begun and by which names, or nothing about
/// this, as a file does. It always reports its count of faults.
pub trait Source {
    /// The number of faults so far.
    ghost faults: { Self → ℕ };

    /// The bytes that are left now.
    ghost left: { Self → Option (List ℕ) };

    /// The bytes that each later begin will make available. One past the end of the list makes
    /// nothing available.
    ghost later: { Self → Option (List (List ℕ)) };

    /// The number of begins.
    ghost begins: { Self → Option ℕ };

    /// The names of the first two begins.
    ghost names: { Self → Option (List (List ℕ)) };

    /// Begins the source by a name. A begin that fails counts as well, with its name.
    fn begin(&mut self, name: String) -> Result<(), Failed>
        ensures cause { HasCause (faults self.old) (faults self.new) result }
        ensures steady { OnOk result (faults self.new ≡ faults self.old) }
        ensures counted { begins self.new ≡ option_map one_more (begins self.old) }
        ensures named { names self.new ≡ option_map (with_name (string_bytes name)) (names self.old) }
        ensures begun { OnOk result (left self.new ≡ option_map next_left (later self.old)) }
        ensures passed { OnOk result (later self.new ≡ option_map after_next (later self.old)) }
        ensures err_left { OnErr result (left self.new ≡ left self.old) }
        ensures err_later { OnErr result (later self.new ≡ later self.old) };

    /// Moves the first bytes of what is left into the front of the buffer, and returns their
    /// number.
    fn read(&mut self, buf: &mut [u8]) -> Result<usize, Failed>
        requires { 0 < length buf.old }
        ensures cause { HasCause (faults self.old) (faults self.new) result }
        ensures steady { OnOk result (faults self.new ≡ faults self.old) }
        ensures bound { IfOk result (λ n. n ≤ length buf.new) }
        ensures moved { IfOk result (λ n. Moves (left self.old) (take n buf.new) (left self.new)) }
        ensures behind { IfSome (left self.old) (λ _. IfOk result (λ n. drop n buf.new ≡ drop n buf.old)) }

        // It returns Ok(0) if and only if nothing is left, as before the first begin.
        ensures end { IfSome (left self.old) (λ left. IfOk result (λ n. (n ≡ 0) ↔ (left ≡ []))) }
        ensures before_begin { begins self.old ≡ Some 0 → left self.old ≡ Some [] }

        // A read that fails moves nothing.
        ensures err_left { OnErr result (left self.new ≡ left self.old) }
        ensures err_buffer { IfSome (left self.old) (λ _. OnErr result (buf.new ≡ buf.old)) }

        // A read changes nothing else.
        ensures later { later self.new ≡ later self.old }
        ensures begins { begins self.new ≡ begins self.old }
        ensures names { names self.new ≡ names self.old };
}
