//! Histories of both finders, side by side.

ghost use Rattle.std.specs.Prelude.{◌<◌};

use crate::counted::Counted;
use crate::divided::divided;
use crate::listing::Listing;
use crate::needs::need_at;
use lane_kernels::{Mode, Op};
use plain_values::Sequence;
use region_finder::Steps;
use region_forest::Forest;
use region_tree::{Needs, Node, OpNumber};
use region_walk::{ScanFinder, WalkFinder};
use std::alloc::{AllocError, Global};
use std::sync::ledger::Ledger;

/// How many steps a history has.
const LENGTH: u64 = 75;

/// Numbers that look like drawn ones, and are the same each time (a linear congruential generator).
#[derive(Drop)]
struct Draws {
    last: u64,
}

impl Draws {
    fn below(&mut self, bound: u64) -> u64
        requires { 0 < bound }
        ensures { result < bound }
    {
        self.last = self
            .last
            .wrapping_mul(6_364_136_223_846_793_005)
            .wrapping_add(1_442_695_040_888_963_407);
        (self.last >> 33) % bound
    }

    fn mode(&mut self) -> Mode {
        match self.below(4) {
            0 => Mode::Read,
            1 => Mode::Write,
            2 => Mode::Reduce(Op::Sum),
            _ => Mode::Reduce(Op::Least),
        }
    }

    /// At most two needs, of any regions.
    fn needs(&mut self, alloc: Global, forest: &Forest) -> Result<Needs, AllocError> {
        let mut items = Sequence::new(alloc);
        for _ in 0..2 {
            let node = Node(self.below(16));
            let field = self.below(2) as u8;
            let mode = self.mode();
            if let Some(need) = need_at(forest, node, field, mode) {
                items.push(need)?;
            }
        }
        Ok(Needs { items })
    }
}

/// What a history came to.
#[derive(Clone, Copy)]
pub struct Told {
    /// Whether both finders told the same each time.
    pub same: bool,
    /// How many operations they told.
    pub operations: usize,
}

/// Both finders, which are given the same calls.
#[derive(Drop)]
struct Both {
    scan: Listing<ScanFinder>,
    walk: Listing<WalkFinder>,
}

impl Both {
    fn new(alloc: Global) -> Result<Both, AllocError> {
        Ok(Both {
            scan: Listing::new(Counted::new(divided(alloc)?), ScanFinder::new(alloc)?),
            walk: Listing::new(Counted::new(divided(alloc)?), WalkFinder::new(alloc)?),
        })
    }

    fn put(&mut self, context: OpNumber, op: OpNumber, needs: &Needs) -> Result<(), AllocError> {
        self.scan.put(context, op, needs)?;
        self.walk.put(context, op, needs)
    }

    fn ended(&mut self, op: OpNumber) {
        self.scan.ended(op);
        self.walk.ended(op);
    }

    fn cover(&mut self, context: OpNumber, op: OpNumber, needs: &Needs) {
        self.scan.cover(context, op, needs);
        self.walk.cover(context, op, needs);
    }

    /// Whether both tell the same earlier operations, and how many.
    fn earlier<L: Ledger>(
        &mut self,
        context: OpNumber,
        needs: &Needs,
        steps: &mut Steps<L>,
    ) -> Result<Told, AllocError> {
        let scan = self.scan.earlier(context, needs, steps)?;
        let walk = self.walk.earlier(context, needs, steps)?;
        match (scan, walk) {
            (Some(scan), Some(walk)) => Ok(Told {
                same: scan.as_slice() == walk.as_slice(),
                operations: scan.len(),
            }),
            _ => Ok(Told {
                same: false,
                operations: 0,
            }),
        }
    }

    /// One step of a history: an operation is listed, or listed anew with other needs, or ends, or covers others, or both are
    /// asked.
    fn step<L: Ledger>(
        &mut self,
        alloc: Global,
        draws: &mut Draws,
        steps: &mut Steps<L>,
    ) -> Result<Told, AllocError> {
        let context = OpNumber(draws.below(2));
        let op = OpNumber(draws.below(12));
        let needs = draws.needs(alloc, self.scan.forest().forest())?;
        match draws.below(5) {
            0 => self.ended(op),
            2 => self.cover(context, op, &needs),
            1 => return self.earlier(context, &needs, steps),
            _ => self.put(context, op, &needs)?,
        }
        Ok(Told {
            same: true,
            operations: 0,
        })
    }
}

/// A history by the number that it begins with.
pub fn history<L: Ledger>(
    alloc: Global,
    number: u64,
    steps: &mut Steps<L>,
) -> Result<Told, AllocError> {
    let mut both = Both::new(alloc)?;
    let mut draws = Draws { last: number };
    let mut same = true;
    let mut operations = 0_usize;
    for _ in 0..LENGTH {
        let told = both.step(alloc, &mut draws, steps)?;
        same = same && told.same;
        operations = operations.saturating_add(told.operations);
    }
    Ok(Told { same, operations })
}
