//! Why reading stops.

use regent_grammar::Terminal;
use std::alloc::{AllocError, AllocFailed};

/// Why reading stopped: no production takes the first of these terminals, or the text's end where there is
/// none; or want of memory.
#[derive(Debug, Drop)]
pub enum Stop<'a> {
    At(&'a [Terminal]),
    Memory(AllocError),
}

impl<'a> From<AllocError> for Stop<'a> {
    ghost use Rattle.std.specs.Prelude.{◌≡◌};
    ghost use Rattle.read_terms.specs.declared.stop.Stop.TheVariants.{Memory};

    ghost from_gives = { λ error stop. stop ≡ Memory error };

    fn from(error: AllocError) -> Stop<'a> {
        Stop::Memory(error)
    }
}

impl<'a, T: Drop> From<AllocFailed<T>> for Stop<'a> {
    ghost use Rattle.std.specs.Prelude.{◌≡◌, alloc_error};
    ghost use Rattle.read_terms.specs.declared.stop.Stop.TheVariants.{Memory};

    ghost from_gives = { λ _ stop. stop ≡ Memory alloc_error };

    fn from(failed: AllocFailed<T>) -> Stop<'a> {
        Stop::Memory(AllocError::from(failed))
    }
}
