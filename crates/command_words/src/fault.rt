//! The reasons why words are not a command.

use std::alloc::{AllocError, AllocFailed};
use thiserror::Error;

/// The reason why words are not a command.
#[derive(Debug, Drop, Error)]
pub enum WordsFault {
    /// The words are refused.
    #[error("the words are no command")]
    Refused,
    /// Out of memory.
    #[error(transparent)]
    Memory(AllocError),
}

impl From<AllocError> for WordsFault {
    ghost use Rattle.std.specs.Prelude.{◌≡◌};
    ghost use Rattle.command_words.specs.declared.fault.WordsFault.TheVariants.{Memory};

    ghost from_gives = { λ error fault. fault ≡ Memory error };

    fn from(error: AllocError) -> WordsFault {
        WordsFault::Memory(error)
    }
}

impl<T: Drop> From<AllocFailed<T>> for WordsFault {
    ghost use Rattle.std.specs.Prelude.{◌≡◌, alloc_error};
    ghost use Rattle.command_words.specs.declared.fault.WordsFault.TheVariants.{Memory};

    ghost from_gives = { λ _ fault. fault ≡ Memory alloc_error };

    fn from(failed: AllocFailed<T>) -> WordsFault {
        WordsFault::Memory(AllocError::from(failed))
    }
}
