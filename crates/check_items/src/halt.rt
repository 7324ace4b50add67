//! Why a check of a program stops.

ghost use Rattle.std.specs.Prelude.{◌≡◌};
ghost use Rattle.check_items.specs.Halting.{halted};

use check_rules::Rule;
use static_types::Stop;
use std::alloc::{AllocError, AllocFailed};

/// Why a check of a program stops: at a rule that is breached on a line, or for want of memory.
#[derive(Debug, Drop)]
pub enum Halt {
    Breach { rule: Rule, line: u32 },
    Memory(AllocError),
}

impl From<AllocError> for Halt {
    ghost use Rattle.std.specs.Prelude.{◌≡◌};
    ghost use Rattle.check_items.specs.declared.halt.Halt.TheVariants.{Memory};

    ghost from_gives = { λ error halt. halt ≡ Memory error };

    fn from(error: AllocError) -> Halt {
        Halt::Memory(error)
    }
}

impl<T: Drop> From<AllocFailed<T>> for Halt {
    ghost use Rattle.std.specs.Prelude.{◌≡◌, alloc_error};
    ghost use Rattle.check_items.specs.declared.halt.Halt.TheVariants.{Memory};

    ghost from_gives = { λ _ halt. halt ≡ Memory alloc_error };

    fn from(failed: AllocFailed<T>) -> Halt {
        Halt::Memory(AllocError::from(failed))
    }
}

/// What stops a check, told on a line.
pub fn halt_on(line: u32, stop: Stop) -> Halt
    ensures { result ≡ halted line stop }
{
    match stop {
        Stop::Breach(rule) => Halt::Breach { rule, line },
        Stop::Memory(error) => Halt::Memory(error),
    }
}
