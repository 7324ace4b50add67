//! A forest that counts at run time how often the points of two nodes were tested.

ghost use Rattle.std.specs.Prelude.{◌≡◌};

use region_finder::{Paths, Probe, Steps};
use region_forest::Forest;
use region_tree::{Node, RootId};
use std::cell::Cell;
use std::marker::Model;
use std::sync::ledger::Ledger;

/// A forest that counts the tests of points, which contracts see as the tree.
#[derive(Drop)]
pub struct Counted {
    forest: Forest,
    tests: Cell<u64>,
}

impl Model for Counted {
    ghost use Rattle.region_tree.specs.Trees.{RegionTree};

    ghost Value = { RegionTree };

    ghost view = { λ c. c.forest };
}

impl Counted {
    pub fn new(forest: Forest) -> Counted
        ensures { result ≡ forest }
    {
        Counted {
            forest,
            tests: Cell::new(0),
        }
    }

    pub fn forest(&self) -> &Forest
        ensures { result.now ≡ self.now }
    {
        &self.forest
    }

    /// How many tests there were.
    pub fn tests(&self) -> u64 {
        self.tests.get()
    }
}

impl Paths for Counted {
    ghost forest = { λ c. c };

    fn root_of(&self, node: Node) -> RootId {
        self.forest.root_of(node)
    }

    fn above(&self, node: Node) -> Option<(Node, u32)> {
        self.forest.above(node)
    }

    fn separated(&self, a: Node, b: Node) -> bool {
        self.forest.separated(a, b)
    }
}

impl<L: Ledger> Probe<L> for Counted {
    fn share(&self, a: Node, b: Node, steps: &mut Steps<L>) -> bool {
        self.tests.set(self.tests.get().saturating_add(1));
        self.forest.share(a, b, steps)
    }
}
