//! The text that a source has under a name.

ghost use Rattle.std.specs.Prelude.{◌≡◌, ◌≤◌, [], IfOk, IfErr, IfSome, length, string_bytes};
ghost use Rattle.std.specs.Option.{option_map};
ghost use Rattle.run_io.specs.Faults.{one_more};
ghost use Rattle.run_io.specs.Rest.{IsCause};
ghost use Rattle.run_io.specs.Source.{Moves, next_left, with_name};
ghost use Rattle.regent_run.specs.Reading.{TakesAtMost};

use run_io::{NoRest, Source, read_rest};
use std::alloc::Global;

/// The most bytes that are read: one more than a text may have.
const MOST_BYTES: usize = 1_048_577;

/// Begins the source by the name, and reads what that leaves, up to 1,048,577 bytes.
pub fn read_text<S: Source>(alloc: Global, source: &mut S, name: String) -> Result<Vec<u8>, NoRest>
    ensures text { IfOk result (λ text.
        Moves (option_map next_left (S.later source.old)) text.items (S.left source.new)) }
    ensures bound { IfOk result (λ text. length text.items ≤ 1048577) }
    // A text that isn't too long is read to its end.
    ensures whole { IfOk result (λ text. length text.items ≤ 1048576 →
        IfSome (S.left source.new) (λ left. left ≡ [])) }
    ensures takes { IfErr result (λ _. TakesAtMost 1048577 (option_map next_left (S.later source.old))
        (S.left source.old) (S.left source.new)) }
    ensures cause { IfErr result (IsCause (S.faults source.old) (S.faults source.new)) }
    ensures steady { IfOk result (λ _. S.faults source.new ≡ S.faults source.old) }
    ensures begins { S.begins source.new ≡ option_map one_more (S.begins source.old) }
    ensures names { S.names source.new ≡ option_map (with_name (string_bytes name)) (S.names source.old) }
{
    source.begin(name)?;
    read_rest(alloc, source, MOST_BYTES)
}
