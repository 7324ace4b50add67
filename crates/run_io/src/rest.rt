//! The bytes that a source has left.

ghost use Rattle.std.specs.Prelude.{◌≡◌, ◌≤◌, ◌<◌, [], IfErr, IfOk, IfSome, length};
ghost use Rattle.run_io.specs.Source.{Moves};
ghost use Rattle.run_io.specs.Rest.{IsCause, TakesAtMost};

use crate::failed::Failed;
use crate::source::Source;
use std::alloc::{AllocError, Global};

/// Why the rest of a source isn't available.
#[derive(Debug, Drop)]
pub enum NoRest {
    /// A read failed.
    Failed,
    /// Out of memory.
    Memory,
}

impl From<Failed> for NoRest {
    ghost use Rattle.std.specs.Prelude.{◌≡◌};
    ghost use Rattle.run_io.specs.declared.rest.NoRest.TheVariants as no_rest;

    ghost from_gives = { λ _ e. e ≡ no_rest.Failed };

    fn from(_failed: Failed) -> NoRest {
        NoRest::Failed
    }
}

impl From<AllocError> for NoRest {
    ghost use Rattle.std.specs.Prelude.{◌≡◌};
    ghost use Rattle.run_io.specs.declared.rest.NoRest.TheVariants as no_rest;

    ghost from_gives = { λ _ e. e ≡ no_rest.Memory };

    fn from(_error: AllocError) -> NoRest {
        NoRest::Memory
    }
}

/// Reads what a source has left, up to `most` bytes.
#[tactic(auto, using(crate::proofs::SourceLemmas::moves_both))]
pub fn read_rest<S: Source>(alloc: Global, source: &mut S, most: usize) -> Result<Vec<u8>, NoRest>
    ensures text { IfOk result (λ text. Moves (S.left source.old) text.items (S.left source.new)) }
    ensures bound { IfOk result (λ text. length text.items ≤ most) }
    // If fewer are left, they are read to the end.
    ensures whole { IfOk result (λ text. length text.items < most →
        IfSome (S.left source.new) (λ left. left ≡ [])) }
    ensures takes { IfErr result (λ _. TakesAtMost most (S.left source.old) (S.left source.new)) }
    ensures cause { IfErr result (IsCause (S.faults source.old) (S.faults source.new)) }
    ensures steady { IfOk result (λ _. S.faults source.new ≡ S.faults source.old) }
    ensures faults { S.faults source.old ≤ S.faults source.new }
    ensures begins { S.begins source.new ≡ S.begins source.old }
    ensures names { S.names source.new ≡ S.names source.old }
    ensures later { S.later source.new ≡ S.later source.old }
{
    let mut text = Vec::new(alloc);
    let mut chunk = [0u8; 4096];
    'turns: while text.len() < most {
        let room = (most - text.len()).min(4096);
        let count = source.read(&mut chunk[..room])?;
        if count == 0 {
            return Ok(text);
        }
        text.extend_from_slice(&chunk[..count])?;
    }
    Ok(text)
}
