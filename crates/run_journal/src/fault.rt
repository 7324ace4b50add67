//! Why a text is refused as a journal.

use std::alloc::{AllocError, AllocFailed};
use thiserror::Error;

/// Why a text is refused as a journal.
#[derive(Debug, Drop, Error)]
pub enum JournalFault {
    /// The first line that no entry has, counted from 1.
    #[error("journal line {line}")]
    BadLine { line: u64 },
    /// There is no memory.
    #[error(transparent)]
    Memory(AllocError),
}

impl From<AllocError> for JournalFault {
    ghost use Rattle.std.specs.Prelude.{◌≡◌};
    ghost use Rattle.run_journal.specs.declared.fault.JournalFault.TheVariants.{Memory};

    ghost from_gives = { λ error fault. fault ≡ Memory error };

    fn from(error: AllocError) -> JournalFault {
        JournalFault::Memory(error)
    }
}

impl<T: Drop> From<AllocFailed<T>> for JournalFault {
    ghost use Rattle.std.specs.Prelude.{◌≡◌, alloc_error};
    ghost use Rattle.run_journal.specs.declared.fault.JournalFault.TheVariants.{Memory};

    ghost from_gives = { λ _ fault. fault ≡ Memory alloc_error };

    fn from(failed: AllocFailed<T>) -> JournalFault {
        JournalFault::Memory(AllocError::from(failed))
    }
}
