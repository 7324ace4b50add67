//! The reasons why a text isn't a program.

use regent_lex::LexKind;
use regent_tree::Counted;
use std::alloc::{AllocError, AllocFailed};
use thiserror::Error;

/// The reason why a text isn't a program. The causes are tested in this order.
#[derive(Debug, Drop, Error)]
pub enum ReadFault {
    /// The text has more than 1,048,576 bytes.
    #[error("the text is too long")]
    TooLong,
    /// The text has no tokens.
    #[error("line {line}: {kind}")]
    Lex { kind: LexKind, line: u32 },
    /// Nesting passes 64 on this line.
    #[error("line {line}: nested too deeply")]
    TooDeep { line: u32 },
    /// The tokens aren't a program. The line is that of the token at which the grammar stops, or of
    /// the text's end.
    #[error("line {line}: no program goes on here")]
    NoProgram { line: u32 },
    /// There are too many of something: the first such count in the text.
    #[error("too many {what:?}: {count}")]
    TooMany { what: Counted, count: u32 },
    #[error(transparent)]
    Memory(AllocError),
}

impl From<AllocError> for ReadFault {
    ghost use Rattle.std.specs.Prelude.{◌≡◌};
    ghost use Rattle.regent_reader.specs.declared.fault.ReadFault.TheVariants.{Memory};

    ghost from_gives = { λ error fault. fault ≡ Memory error };

    fn from(error: AllocError) -> ReadFault {
        ReadFault::Memory(error)
    }
}

impl<T: Drop> From<AllocFailed<T>> for ReadFault {
    ghost use Rattle.std.specs.Prelude.{◌≡◌, alloc_error};
    ghost use Rattle.regent_reader.specs.declared.fault.ReadFault.TheVariants.{Memory};

    ghost from_gives = { λ _ fault. fault ≡ Memory alloc_error };

    fn from(failed: AllocFailed<T>) -> ReadFault {
        ReadFault::Memory(AllocError::from(failed))
    }
}
