//! How nodes stand in a region tree.

ghost use Rattle.std.specs.Prelude.{◌≡◌};
ghost use Rattle.region_forest.specs.Standings.{above_by, holder_by, is_region_by};

use region_tree::Node;

/// How a node stands in its tree.
#[derive(Clone, Copy, Debug, PartialEq, Eq)]
pub enum Standing {
    /// The region of a root.
    Root,
    /// The child of a partition, by a colour.
    Child { partition: Node, colour: u32 },
    /// A partition of a region.
    Partition { region: Node },
}

impl Standing {
    /// What stands above the node.
    pub fn above(self) -> Option<(Node, u32)>
        ensures { result ≡ above_by self }
    {
        match self {
            Standing::Root => None,
            Standing::Child { partition, colour } => Some((partition, colour)),
            Standing::Partition { region } => Some((region, 0)),
        }
    }

    /// Whether the node is a region.
    pub fn is_region(self) -> bool
        ensures { result ≡ is_region_by self }
    {
        match self {
            Standing::Root | Standing::Child { .. } => true,
            Standing::Partition { .. } => false,
        }
    }

    /// The region that has the points of a node that stands so.
    pub fn holder(self, node: Node) -> Node
        ensures { result ≡ holder_by self node }
    {
        match self {
            Standing::Partition { region } => region,
            _ => node,
        }
    }
}
