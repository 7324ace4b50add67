//! A region tree as one goes up in it.

ghost use Rattle.std.specs.Prelude.{◌≡◌, ◌+◌, ◌↔◌, IsTrue};
ghost use Rattle.plain_values.specs.Points.{meets};
ghost use Rattle.region_finder.specs.Forests.{IsForest, above};
ghost use Rattle.region_tree.specs.Trees.{AreSeparated, IsNode, RegionTree, points_at, root_at, separated};

use crate::steps::Steps;
use region_tree::{Node, RootId};
use std::sync::ledger::Ledger;

/// A region tree whose nodes tell what stands above them (region trees: OOPSLA 2013).
pub trait Paths {
    /// The nodes, with their points and the flags of partitions.
    ghost forest: { Self → RegionTree };

    /// The root that a node belongs to.
    fn root_of(&self, node: Node) -> RootId
        requires { IsNode (forest self.now) node.0 }
        ensures value { result.0 ≡ root_at (forest self.now) node.0 }
        ensures forest { IsForest (forest self.now) };

    /// Above a child its partition and its colour, above a partition the region that it divides and 0,
    /// and above the node of a root nothing.
    fn above(&self, node: Node) -> Option<(Node, u32)>
        requires { IsNode (forest self.now) node.0 }
        ensures value { result ≡ above (forest self.now) node.0 }
        ensures forest { IsForest (forest self.now) };

    /// Whether the paths of two nodes first part at different colours of one disjoint partition. Then
    /// the nodes share no point.
    fn separated(&self, a: Node, b: Node) -> bool
        requires first { IsNode (forest self.now) a.0 }
        requires second { IsNode (forest self.now) b.0 }
        ensures value { result ≡ separated (forest self.now) a.0 b.0 }
        ensures paths { IsTrue result ↔ AreSeparated (forest self.now) a.0 b.0 }
        ensures forest { IsForest (forest self.now) };
}

/// A region tree that tells, at one step of a counter, whether two nodes share a point.
pub trait Probe<L: Ledger>: Paths {
    /// Whether the points of two nodes meet. Nothing else tells a finder.
    fn share(&self, a: Node, b: Node, steps: &mut Steps<L>) -> bool
        requires first { IsNode (Self.forest self.now) a.0 }
        requires second { IsNode (Self.forest self.now) b.0 }
        ensures value { result ≡ meets (points_at (Self.forest self.now) a.0)
            (points_at (Self.forest self.now) b.0) }
        ensures cost { steps.new ≡ steps.old + 1 };
}
