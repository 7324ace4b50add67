//! A finder that refuses one operation.

ghost use Rattle.std.specs.Prelude.{◌≡◌};

use region_finder::{Finder, Paths, Probe, Steps};
use region_tree::{Needs, OpNumber};
use std::alloc::AllocError;
use std::sync::ledger::Ledger;

/// A finder that refuses to add one operation, as if memory were missing there.
#[derive(Drop)]
pub struct Refusing<F: Finder + Drop> {
    finder: F,
    adds_before: u64,
}

impl<F: Finder + Drop> Refusing<F> {
    /// One that adds so many operations, refuses the next one, and adds those behind it.
    pub fn new(finder: F, adds_before: u64) -> Refusing<F>
        ensures { result.finder ≡ finder }
    {
        Refusing {
            finder,
            adds_before,
        }
    }
}

impl<F: Finder + Drop> Finder for Refusing<F> {
    ghost listing = { λ r. F.listing r.finder };

    fn earlier<L: Ledger, P: Probe<L>>(
        &mut self,
        tree: &P,
        context: OpNumber,
        needs: &Needs,
        steps: &mut Steps<L>,
    ) -> Result<Vec<OpNumber>, AllocError> {
        self.finder.earlier(tree, context, needs, steps)
    }

    fn add<P: Paths>(
        &mut self,
        tree: &P,
        context: OpNumber,
        op: OpNumber,
        needs: &Needs,
    ) -> Result<(), AllocError> {
        if self.adds_before == 0 {
            self.adds_before = u64::MAX;
            return Err(AllocError);
        }
        self.adds_before -= 1;
        self.finder.add(tree, context, op, needs)
    }

    fn ended(&mut self, op: OpNumber) {
        self.finder.ended(op);
    }

    fn cover<P: Paths>(&mut self, tree: &P, context: OpNumber, op: OpNumber, needs: &Needs) {
        self.finder.cover(tree, context, op, needs);
    }
}
