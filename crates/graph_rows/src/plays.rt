//! One play over both finders.

ghost use Rattle.std.specs.Prelude.{◌≡◌, []};

use crate::divided::divided;
use crate::lines::told_of;
use crate::play::Play;
use crate::refusing::Refusing;
use region_finder::{Finder, Steps};
use region_walk::{ScanFinder, WalkFinder};
use std::alloc::{AllocError, Global};
use std::sync::ledger::Ledger;

/// Two graphs, one for each finder, which are given the same calls.
#[derive(Drop)]
pub struct Plays {
    scan: Play<Refusing<ScanFinder>>,
    walk: Play<Refusing<WalkFinder>>,
}

/// A graph over a finder that refuses an operation behind so many.
fn play_over<F: Finder + Drop>(
    alloc: Global,
    finder: F,
    adds_before: u64,
) -> Result<Play<Refusing<F>>, AllocError>
    requires { F.listing finder ≡ [] }
{
    let forest = divided(alloc)?;
    Play::new(alloc, forest, Refusing::new(finder, adds_before))
}

impl Plays {
    /// New graphs whose finders refuse an operation behind so many.
    pub fn new(alloc: Global, adds_before: u64) -> Result<Plays, AllocError> {
        Ok(Plays {
            scan: play_over(alloc, ScanFinder::new(alloc)?, adds_before)?,
            walk: play_over(alloc, WalkFinder::new(alloc)?, adds_before)?,
        })
    }

    /// What both tell of a line: twice where they differ.
    pub fn told<L: Ledger>(
        &mut self,
        alloc: Global,
        line: &str,
        steps: &mut Steps<L>,
    ) -> Result<String, AllocError> {
        let scan = told_of(alloc, &mut self.scan, line, steps)?;
        let walk = told_of(alloc, &mut self.walk, line, steps)?;
        if scan.as_str() == walk.as_str() {
            Ok(scan)
        } else {
            format!(in alloc; "scan {scan} walk {walk}")
        }
    }
}
