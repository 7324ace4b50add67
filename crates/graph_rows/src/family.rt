//! Which operation issued which.

ghost use Rattle.std.specs.Prelude.{◌≡◌, IsTrue};
ghost use Rattle.dependence_graph.specs.Issues.{IsOwn};
ghost use Rattle.dependence_graph.specs.declared.stage.Waiting.TheVariants.{Child};
ghost use Rattle.graph_rows.specs.Plays.{AreIssued, IsOf};

use dependence_graph::{Graph, Issued};
use region_finder::Finder;
use region_tree::OpNumber;

/// What one issue gave to a parent.
#[derive(Clone, Copy, Debug, PartialEq, Eq)]
pub struct Family {
    pub parent: OpNumber,
    pub children: Issued,
}

impl Family {
    fn has(self, parent: OpNumber, child: OpNumber) -> bool
        ensures { IsTrue result → IsOf self parent.0 child.0 }
    {
        let first = self.children.first.0;
        self.parent.0 == parent.0 && first <= child.0 && child.0 - first < self.children.count
    }
}

/// Whether an operation was issued by a parent.
pub fn has_child<F: Finder + Drop>(
    graph: &Graph<F>,
    families: &[Family],
    parent: OpNumber,
    child: OpNumber,
) -> bool
    requires { AreIssued graph.now.knots families.now }
    ensures { IsTrue result → IsOwn graph.now.knots parent.0 (Child child) }
{
    for family in families {
        if family.has(parent, child) {
            return true;
        }
    }
    false
}
