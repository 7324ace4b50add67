//! A finder that tests each operation.

ghost use Rattle.std.specs.Prelude.{◌≡◌, false};
ghost use Rattle.region_finder.specs.Listings.{has_op};
ghost use Rattle.region_walk.specs.Keeping.{entries_of, live};

use crate::entries::Entries;
use region_finder::{Finder, Paths, Probe, Steps};
use region_tree::{Needs, OpNumber};
use std::alloc::{AllocError, Global};
use std::marker::Model;
use std::sync::ledger::Ledger;

/// The plain finder: it keeps entries in rising order, and tests each that hasn't ended.
#[derive(Drop)]
pub struct ScanFinder {
    entries: Entries,
}

impl Model for ScanFinder {
    ghost use Rattle.std.specs.Prelude.{List};
    ghost use Rattle.region_finder.specs.Listings.{Listed};
    ghost use Rattle.region_walk.specs.Keeping.{live};

    ghost Value = { List Listed };

    ghost view = { λ f. live f.entries };
}

impl ScanFinder {
    ghost use Rattle.std.specs.Prelude.{◌≡◌, [], IsOkAnd};

    /// A finder that lists nothing; it takes no memory.
    pub fn new(alloc: Global) -> Result<ScanFinder, AllocError>
        ensures { IsOkAnd result (λ f. f ≡ []) }
    {
        Ok(ScanFinder {
            entries: Entries::new(alloc),
        })
    }

    /// Where the finder takes its memory from.
    pub fn allocator(&self) -> Global {
        self.entries.allocator()
    }
}

/// Tidies up where there is an entry of an operation that is to be listed again.
fn tidy_for(entries: &mut Entries, op: OpNumber)
    requires { has_op (live entries.old) op.0 ≡ false }
    ensures live { live entries.new ≡ live entries.old }
    ensures absent { has_op (entries_of entries.new) op.0 ≡ false }
{
    if entries.knows(op) {
        entries.tidy();
    }
}

impl Finder for ScanFinder {
    ghost listing = { λ f. f };

    fn earlier<L: Ledger, P: Probe<L>>(
        &mut self,
        tree: &P,
        context: OpNumber,
        needs: &Needs,
        steps: &mut Steps<L>,
    ) -> Result<Vec<OpNumber>, AllocError> {
        let mut found = Vec::new(self.entries.allocator());
        for kept in self.entries.as_slice() {
            if kept.interferes(tree, context, needs.items.as_slice(), steps) {
                found.push(kept.op())?;
            }
        }
        Ok(found)
    }

    fn add<P: Paths>(
        &mut self,
        tree: &P,
        context: OpNumber,
        op: OpNumber,
        needs: &Needs,
    ) -> Result<(), AllocError> {
        tidy_for(&mut self.entries, op);
        self.entries.add(tree, context, op, needs.items.as_slice())
    }

    /// Takes the operation's entry out together with others, when more than half of the entries are of such operations.
    fn ended(&mut self, op: OpNumber) {
        self.entries.end(op);
        if self.entries.are_stale() {
            self.entries.tidy();
        }
    }

    fn cover<P: Paths>(&mut self, tree: &P, context: OpNumber, op: OpNumber, needs: &Needs) {
        self.entries.uncover(context, op, needs.items.as_slice());
    }
}
