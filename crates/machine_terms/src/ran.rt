//! Segments that were run.

ghost use Rattle.std.specs.Prelude.{◌≡◌};
ghost use Rattle.machine_terms.specs.Segments.{segment};

use crate::frame::Before;
use crate::outcome::After;
use plain_values::Shared;
use std::marker::Model;

/// A segment that was run: what it left, with what it was run from. Contracts see what it was run
/// from.
#[derive(Drop)]
pub struct Ran {
    before: Shared<Before>,
    after: After,
}

impl Model for Ran {
    ghost use Rattle.std.specs.Prelude.{◌≡◌};
    ghost use Rattle.machine_terms.specs.declared.frame.Before.{Before};
    ghost use Rattle.machine_terms.specs.Segments.{segment};

    ghost Value = { Before };

    ghost view = { λ r. r.before };

    ghost invariant = { λ r. r.after ≡ segment r.before };
}

impl Ran {
    /// A segment that was run, out of what it was run from and what it left.
    pub fn new(before: Shared<Before>, after: After) -> Ran
        requires { after ≡ segment before }
        ensures { result ≡ before }
    {
        Ran { before, after }
    }

    /// What it was run from.
    pub fn before(&self) -> &Shared<Before>
        ensures { result.now ≡ self.now }
    {
        &self.before
    }

    /// What it left.
    pub fn after(&self) -> &After
        ensures { result.now ≡ segment self.now }
    {
        &self.after
    }

    /// What it left, to keep.
    pub fn into_after(self) -> After
        ensures { result ≡ segment self }
    {
        let Ran {
            before: _before,
            after,
        } = self;
        after
    }
}
