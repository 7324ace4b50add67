//! Region trees.

ghost use Rattle.std.specs.Prelude.{◌≡◌, ◌↔◌, ◌^◌, ◌<◌, ◌≤◌, length, true, false};
ghost use Rattle.std.specs.Prelude.{IfErr, IfOk, IfSome, IsOkAnd, IsTrue, OnErr, OnOk};
ghost use Rattle.plain_values.specs.Points.{meets, within};
ghost use Rattle.region_tree.specs.Kept.{Grows, IsChild, IsTree};
ghost use Rattle.region_tree.specs.Refusals.{AreWithin, Refuses, TellsLeaving, TellsSharing};
ghost use Rattle.region_tree.specs.Sharing.{AreDisjoint};
ghost use Rattle.region_tree.specs.Trees.{AreSeparated, IsNode, IsPartition, IsRegion};
ghost use Rattle.region_tree.specs.Trees.{is_disjoint, set_at, with_partition, with_root};
ghost use Rattle.region_tree.specs.Trees.{child_at, colours_at, empty_tree, node_at, points_at};
ghost use Rattle.region_tree.specs.Trees.{root_at, separated};

use crate::content::{Content, Entry, Node, partition_entries};
use crate::fault::TreeFault;
use crate::path::{leads_to, parting};
use crate::refusal::test_partition;
use point_sets::PointSet;
use std::alloc::{AllocError, Global};
use std::marker::Model;

/// A root of region trees.
#[derive(Clone, Copy, Debug, PartialEq, Eq)]
pub struct RootId(pub u64);

/// The number of an operation, as a task that was called.
#[derive(Clone, Copy, Debug, PartialEq, Eq)]
pub struct OpNumber(pub u64);

/// All roots with what was made of them, which contracts see as the list of nodes.
#[derive(Drop)]
pub struct Tree {
    roots: u64,
    nodes: Vec<Entry>,
}

impl Model for Tree {
    ghost use Rattle.region_tree.specs.Trees.{RegionTree};
    ghost use Rattle.region_tree.specs.Kept.{IsTree};

    ghost Value = { RegionTree };

    ghost view = { λ t. record { roots = t.roots; nodes = t.nodes.items } };

    ghost invariant = { λ t. IsTree (record { roots = t.roots; nodes = t.nodes.items }) };
}

impl Tree {
    /// The tree without roots; it takes no memory.
    pub fn new(alloc: Global) -> Result<Tree, AllocError>
        ensures { IsOkAnd result (λ t. t ≡ empty_tree) }
    {
        Ok(Tree {
            roots: 0,
            nodes: Vec::new(alloc),
        })
    }

    /// A new root of these points, and its node.
    pub fn add_root(&mut self, points: PointSet) -> Result<(RootId, Node), AllocError>
        ensures root { IfOk result (λ r. r.0.0 ≡ self.old.roots) }
        ensures node { IfOk result (λ r. r.1.0 ≡ length self.old.nodes) }
        ensures tree { OnOk result (self.new ≡ with_root self.old points) }
        ensures region { IfOk result (λ r. IsRegion self.new r.1.0) }
        ensures grows { Grows self.old self.new }
        ensures unchanged { OnErr result (self.new ≡ self.old) }
    {
        let (root, node) = self.next();
        let entry = Entry::root_region(*self.nodes.allocator(), root, points);
        self.nodes.push(entry)?;
        self.roots += 1;
        Ok((root, node))
    }

    /// A new partition of a region, into one set for each colour. Its children have the numbers
    /// right behind its own, by colour.
    ///
    /// It is refused where a set leaves the region, and else, where it is to be disjoint, where two
    /// sets share a point. The sets are dropped then, and the tree is as it was.
    pub fn add_partition(
        &mut self,
        region: Node,
        sets: Vec<PointSet>,
        disjoint: bool,
    ) -> Result<Node, TreeFault>
        requires region { IsRegion self.old region.0 }
        requires colours { length sets.items < 2 ^ 32 }
        ensures node { IfOk result (λ n. n.0 ≡ length self.old.nodes) }
        ensures tree { OnOk result (self.new
            ≡ with_partition self.old region.0 sets.items disjoint) }
        ensures partition { IfOk result (λ n. IsPartition self.new n.0) }
        ensures grows { Grows self.old self.new }
        ensures unchanged { OnErr result (self.new ≡ self.old) }
        ensures within { OnOk result (AreWithin (set_at self.old region.0) sets.items) }
        ensures apart { OnOk result (disjoint ≡ true → AreDisjoint sets.items) }
        ensures refused { IfErr result (Refuses (set_at self.old region.0) sets.items disjoint) }
        ensures leaves { ¬ AreWithin (set_at self.old region.0) sets.items → TellsLeaving result }
        ensures shares { AreWithin (set_at self.old region.0) sets.items
            → disjoint ≡ true → ¬ AreDisjoint sets.items → TellsSharing result }
    {
        let alloc = *self.nodes.allocator();
        test_partition(alloc, self.set(region), &sets, disjoint)?;
        let (_, partition) = self.next();
        let divided = self.entry(region);
        let mut entries = partition_entries(alloc, divided, region, partition, sets, disjoint)?;
        self.nodes.append(&mut entries)?;
        Ok(partition)
    }

    /// The numbers of the next root and of the next node.
    pub fn next(&self) -> (RootId, Node)
        ensures root { result.0.0 ≡ self.now.roots }
        ensures node { result.1.0 ≡ length self.now.nodes }
    {
        (RootId(self.roots), Node(self.nodes.len() as u64))
    }

    /// The child of a partition by a colour: none where the partition lacks the colour.
    pub fn child(&self, partition: Node, colour: u32) -> Option<Node>
        requires { IsPartition self.now partition.0 }
        ensures value { result ≡ child_at self.now partition.0 colour }
        ensures none { (result ≡ None) ↔ (colours_at self.now partition.0 ≤ colour) }
        ensures inside { IfSome result (λ _. IsChild self.now partition.0 colour) }
        ensures region { IfSome result (λ n. IsRegion self.now n.0) }
    {
        match self.entry(partition).content() {
            Content::Partition { colours, .. } if colour < *colours => {
                Some(Node(partition.0 + 1 + u64::from(colour)))
            }
            _ => None,
        }
    }

    /// The points of a region.
    pub fn set(&self, region: Node) -> &PointSet
        requires { IsRegion self.now region.0 }
        ensures value { result.now ≡ set_at self.now region.0 }
        ensures tree { IsTree self.now }
    {
        match self.entry(region).content() {
            Content::Region(points) => points,
            Content::Partition { .. } => unreachable!(),
        }
    }

    /// The root that a node belongs to.
    pub fn root_of(&self, node: Node) -> RootId
        requires { IsNode self.now node.0 }
        ensures { result.0 ≡ root_at self.now node.0 }
    {
        self.entry(node).root()
    }

    /// Whether the paths of two nodes first part at different colours of one disjoint partition.
    /// Then the nodes share no point.
    pub fn separated(&self, a: Node, b: Node) -> bool
        requires first { IsNode self.now a.0 }
        requires second { IsNode self.now b.0 }
        ensures value { result ≡ separated self.now a.0 b.0 }
        ensures paths { IsTrue result ↔ AreSeparated self.now a.0 b.0 }
        ensures apart { IsTrue result
            → meets (points_at self.now a.0) (points_at self.now b.0) ≡ false }
    {
        self.paths_part(a, b)
    }

    /// Compares the paths of two nodes.
    fn paths_part(&self, a: Node, b: Node) -> bool
        requires first { IsNode self.now a.0 }
        requires second { IsNode self.now b.0 }
        ensures value { result ≡ separated self.now a.0 b.0 }
        ensures tree { IsTree self.now }
    {
        let (one, other) = (self.entry(a), self.entry(b));
        one.root().0 == other.root().0
            && match parting(one.path(), other.path()) {
                Some(partition) => self.is_disjoint(partition),
                None => false,
            }
    }

    /// Where the tree takes its memory from.
    pub(crate) fn allocator(&self) -> Global {
        *self.nodes.allocator()
    }

    /// Whether a region is another one, or lies under it on its path.
    pub(crate) fn lies_under(&self, region: Node, outer: Node) -> bool
        requires first { IsRegion self.now region.0 }
        requires second { IsRegion self.now outer.0 }
        ensures { IsTrue result
            → within (set_at self.now region.0) (set_at self.now outer.0) ≡ true }
    {
        region.0 == outer.0 || leads_to(self.entry(region).path(), outer)
    }

    /// Whether a node is a disjoint partition.
    fn is_disjoint(&self, node: Node) -> bool
        ensures { result ≡ is_disjoint self.now node.0 }
    {
        match self.nodes.get(node.0 as usize) {
            Some(entry) => entry.content().is_disjoint(),
            None => false,
        }
    }

    fn entry(&self, node: Node) -> &Entry
        requires { IsNode self.now node.0 }
        ensures node { result.now ≡ node_at self.now node.0 }
        ensures tree { IsTree self.now }
        ensures counted { length self.now.nodes < 2 ^ 64 }
    {
        &self.nodes[node.0 as usize]
    }
}
