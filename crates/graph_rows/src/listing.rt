//! A finder with the forest in which its needs stand.

ghost use Rattle.std.specs.Prelude.{◌≡◌, []};

use crate::counted::Counted;
use crate::needs::are_needs;
use region_finder::{Finder, Steps};
use region_tree::{Needs, OpNumber};
use std::alloc::AllocError;
use std::marker::Model;
use std::sync::ledger::Ledger;

/// A finder with a forest, which contracts see as what it lists.
#[derive(Drop)]
pub struct Listing<F: Finder + Drop> {
    forest: Counted,
    finder: F,
}

impl<F: Finder + Drop> Model for Listing<F> {
    ghost use Rattle.std.specs.Prelude.{List};
    ghost use Rattle.region_finder.specs.Listings.{IsListingOf, Listed};

    ghost Value = { List Listed };

    ghost view = { λ l. F.listing l.finder };

    ghost invariant = { λ l. IsListingOf l.forest (F.listing l.finder) };
}

impl<F: Finder + Drop> Listing<F> {
    pub fn new(forest: Counted, finder: F) -> Listing<F>
        requires { F.listing finder ≡ [] }
    {
        Listing { forest, finder }
    }

    pub fn forest(&self) -> &Counted {
        &self.forest
    }

    /// Lists an operation, in place of what it was listed with before. It isn't where a need is none of the forest.
    pub fn put(
        &mut self,
        context: OpNumber,
        op: OpNumber,
        needs: &Needs,
    ) -> Result<(), AllocError> {
        if !are_needs(self.forest.forest(), needs) {
            return Ok(());
        }
        self.finder.ended(op);
        self.finder.add(&self.forest, context, op, needs)?;
        Ok(())
    }

    pub fn ended(&mut self, op: OpNumber) {
        self.finder.ended(op);
    }

    /// Takes out what an operation's needs cover: nothing, where a need is none of the forest.
    pub fn cover(&mut self, context: OpNumber, op: OpNumber, needs: &Needs) {
        if are_needs(self.forest.forest(), needs) {
            self.finder.cover(&self.forest, context, op, needs);
        }
    }

    /// The listed operations of a context that interfere with these needs: none where a need is none of the forest.
    pub fn earlier<L: Ledger>(
        &mut self,
        context: OpNumber,
        needs: &Needs,
        steps: &mut Steps<L>,
    ) -> Result<Option<Vec<OpNumber>>, AllocError> {
        if !are_needs(self.forest.forest(), needs) {
            return Ok(None);
        }
        Ok(Some(self.finder.earlier(&self.forest, context, needs, steps)?))
    }
}
