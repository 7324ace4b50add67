//! The way from a root down to a node.

ghost use Rattle.std.specs.Prelude.{◌≡◌};
ghost use Rattle.region_tree.specs.Paths.{parting, steps_to};
ghost use Rattle.std.specs.List.{list_any};

use crate::content::Node;

/// A step of a path: a partition, and the colour of its child that the path goes on to.
#[derive(Clone, Copy, Debug, Default)]
pub struct Step {
    pub partition: Node,
    pub colour: u32,
}

/// The partition at different colours of which two paths first part, if that is how they part.
pub fn parting(a: &[Step], b: &[Step]) -> Option<Node>
    ensures { result ≡ parting a.now b.now }
{
    let shorter = a.len().min(b.len());
    for place in 0..shorter {
        let (one, other) = (a[place], b[place]);
        if one.partition.0 != other.partition.0 {
            return None;
        }
        if one.colour != other.colour {
            return Some(one.partition);
        }
    }
    None
}

/// Whether a step of a path leads to a node.
pub fn leads_to(path: &[Step], node: Node) -> bool
    ensures { result ≡ list_any (steps_to node.0) path.now }
{
    path.iter().any(|step| step.leads_to(node))
}

impl Step {
    /// Whether the step leads to a node: children come right behind their partition, by colour.
    fn leads_to(&self, node: Node) -> bool
        ensures { result ≡ steps_to node.0 self.now }
    {
        self.partition.0 < node.0 && node.0 - self.partition.0 - 1 == u64::from(self.colour)
    }
}
