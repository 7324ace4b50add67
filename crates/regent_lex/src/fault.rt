//! Why a text has no tokens.

use std::alloc::{AllocError, AllocFailed};
use thiserror::Error;

/// What is wrong with a text.
#[derive(Clone, Copy, Debug, PartialEq, Eq, Error)]
pub enum LexKind {
    /// A byte that may not stand where it stands.
    #[error("a byte that may not stand there")]
    BadByte,
    /// A string without its closing quote on the line, or a block comment without its `]]`.
    #[error("a string or a comment without an end")]
    Unclosed,
    /// A number of 2^63 or more.
    #[error("a number that is too large")]
    NumberTooLarge,
    /// A name of more than 64 bytes.
    #[error("a name that is too long")]
    NameTooLong,
}

/// Why a text has no tokens: its first fault, or want of memory.
#[derive(Debug, Drop, Error)]
pub enum LexFault {
    #[error("line {line}: {kind}")]
    At { kind: LexKind, line: u32 },
    #[error(transparent)]
    Memory(AllocError),
}

impl From<AllocError> for LexFault {
    ghost use Rattle.std.specs.Prelude.{◌≡◌};
    ghost use Rattle.regent_lex.specs.declared.fault.LexFault.TheVariants.{Memory};

    ghost from_gives = { λ error fault. fault ≡ Memory error };

    fn from(error: AllocError) -> LexFault {
        LexFault::Memory(error)
    }
}

impl<T: Drop> From<AllocFailed<T>> for LexFault {
    ghost use Rattle.std.specs.Prelude.{◌≡◌, alloc_error};
    ghost use Rattle.regent_lex.specs.declared.fault.LexFault.TheVariants.{Memory};

    ghost from_gives = { λ _ fault. fault ≡ Memory alloc_error };

    fn from(failed: AllocFailed<T>) -> LexFault {
        LexFault::Memory(AllocError::from(failed))
    }
}
