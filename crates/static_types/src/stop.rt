//! Why a check stops.

use check_rules::Rule;
use std::alloc::{AllocError, AllocFailed};

/// Why a check stops: at a rule that is breached, or for want of memory.
#[derive(Debug, Drop)]
pub enum Stop {
    Breach(Rule),
    Memory(AllocError),
}

impl From<AllocError> for Stop {
    ghost use Rattle.std.specs.Prelude.{◌≡◌};
    ghost use Rattle.static_types.specs.declared.stop.Stop.TheVariants.{Memory};

    ghost from_gives = { λ error stop. stop ≡ Memory error };

    fn from(error: AllocError) -> Stop {
        Stop::Memory(error)
    }
}

impl<T: Drop> From<AllocFailed<T>> for Stop {
    ghost use Rattle.std.specs.Prelude.{◌≡◌, alloc_error};
    ghost use Rattle.static_types.specs.declared.stop.Stop.TheVariants.{Memory};

    ghost from_gives = { λ _ stop. stop ≡ Memory alloc_error };

    fn from(failed: AllocFailed<T>) -> Stop {
        Stop::Memory(AllocError::from(failed))
    }
}

impl Stop {
    ghost use Rattle.std.specs.Prelude.{◌≡◌, Bool};
    ghost use Rattle.check_rules.specs.first.Rules.{rule_if};
    ghost use Rattle.static_types.specs.Telling.{Tells, Anything};

    /// Stops where a rule is broken.
    pub fn at(broken: bool, rule: Rule) -> Result<(), Stop>
        ensures { Tells Anything result (rule_if broken rule) }
    {
        if broken {
            return Err(Stop::Breach(rule));
        }
        Ok(())
    }
}
