//! A region tree with what stands above its nodes.

ghost use Rattle.std.specs.Prelude.{◌≡◌, ◌<◌, ◌^◌, ◌↔◌, IfErr, IfOk, IsOkAnd, IsTrue, OnErr, OnOk, length, true};
ghost use Rattle.region_tree.specs.Kept.{Grows};
ghost use Rattle.region_tree.specs.Refusals.{AreWithin, Refuses, TellsLeaving, TellsSharing};
ghost use Rattle.region_tree.specs.Sharing.{AreDisjoint};
ghost use Rattle.region_tree.specs.Trees.{IsNode, IsPartition, IsRegion, empty_tree, points_at, set_at, with_partition, with_root};
ghost use Rattle.region_finder.specs.Forests.{IsForest};
ghost use Rattle.region_forest.specs.Standings.{standing_at};

use crate::standing::Standing;
use crate::standings::add_standings;
use point_sets::PointSet;
use region_finder::{Paths, Probe, Steps};
use region_tree::{Node, RootId, Tree, TreeFault};
use std::alloc::{AllocError, Global};
use std::marker::Model;
use std::sync::ledger::Ledger;

/// A region tree whose nodes tell what stands above them, which contracts see as the tree.
#[derive(Drop)]
pub struct Forest {
    tree: Tree,
    standings: Vec<Standing>,
}

impl Model for Forest {
    ghost use Rattle.region_tree.specs.Trees.{RegionTree};
    ghost use Rattle.region_forest.specs.Standings.{IsKept};

    ghost Value = { RegionTree };

    ghost view = { λ f. f.tree };

    ghost invariant = { λ f. IsKept f.tree f.standings.items };
}

impl Forest {
    /// The forest without roots; it takes no memory.
    pub fn new(alloc: Global) -> Result<Forest, AllocError>
        ensures { IsOkAnd result (λ f. f ≡ empty_tree) }
    {
        let tree = Tree::new(alloc)?;
        Ok(Forest {
            tree,
            standings: Vec::new(alloc),
        })
    }

    /// The tree alone: it tells the next numbers, the children of partitions and the points of regions.
    pub fn tree(&self) -> &Tree
        ensures tree { result.now ≡ self.now }
        ensures forest { IsForest self.now }
    {
        &self.tree
    }

    /// A new root of these points, and its node.
    pub fn add_root(&mut self, points: PointSet) -> Result<(RootId, Node), AllocError>
        ensures root { IfOk result (λ r. r.0.0 ≡ self.old.roots) }
        ensures node { IfOk result (λ r. r.1.0 ≡ length self.old.nodes) }
        ensures tree { OnOk result (self.new ≡ with_root self.old points) }
        ensures region { IfOk result (λ r. IsRegion self.new r.1.0) }
        ensures grows { Grows self.old self.new }
        ensures unchanged { OnErr result (self.new ≡ self.old) }
    {
        self.standings.reserve(1)?;
        let made = self.tree.add_root(points)?;
        self.standings.push_reserved(Standing::Root);
        Ok(made)
    }

    /// A new partition of a region, into one set for each colour. Its children have the numbers
    /// right behind its own, by colour.
    ///
    /// It is refused where a set leaves the region, and else, where it is to be disjoint, where two
    /// sets share a point. The sets are dropped then, and the forest is as it was.
    pub fn add_partition(
        &mut self,
        region: Node,
        sets: Vec<PointSet>,
        disjoint: bool,
    ) -> Result<Node, TreeFault>
        requires region { IsRegion self.old region.0 }
        requires colours { length sets.items < 2 ^ 32 }
        ensures node { IfOk result (λ n. n.0 ≡ length self.old.nodes) }
        ensures tree { OnOk result (self.new
            ≡ with_partition self.old region.0 sets.items disjoint) }
        ensures partition { IfOk result (λ n. IsPartition self.new n.0) }
        ensures grows { Grows self.old self.new }
        ensures unchanged { OnErr result (self.new ≡ self.old) }
        ensures within { OnOk result (AreWithin (set_at self.old region.0) sets.items) }
        ensures apart { OnOk result (disjoint ≡ true → AreDisjoint sets.items) }
        ensures refused { IfErr result (Refuses (set_at self.old region.0) sets.items disjoint) }
        ensures leaves { ¬ AreWithin (set_at self.old region.0) sets.items → TellsLeaving result }
        ensures shares { AreWithin (set_at self.old region.0) sets.items
            → disjoint ≡ true → ¬ AreDisjoint sets.items → TellsSharing result }
    {
        let colours = sets.len() as u32;
        self.standings.reserve(sets.len() + 1)?;
        let partition = self.tree.add_partition(region, sets, disjoint)?;
        add_standings(&mut self.standings, region, partition, colours);
        Ok(partition)
    }

    /// Whether a number is that of a region.
    pub fn is_region(&self, node: Node) -> bool
        ensures { IsTrue result ↔ IsRegion self.now node.0 }
    {
        (node.0 as usize) < self.standings.len() && self.standings[node.0 as usize].is_region()
    }

    /// How a node stands.
    fn standing(&self, node: Node) -> Standing
        requires { IsNode self.now node.0 }
        ensures standing { result ≡ standing_at self.now node.0 }
        ensures forest { IsForest self.now }
    {
        self.standings[node.0 as usize]
    }

    /// The points of a node: of a partition they are those of the region that it divides.
    fn points(&self, node: Node) -> &PointSet
        requires { IsNode self.now node.0 }
        ensures { result.now ≡ points_at self.now node.0 }
    {
        self.tree.set(self.standing(node).holder(node))
    }
}

impl Paths for Forest {
    ghost forest = { λ f. f };

    fn root_of(&self, node: Node) -> RootId {
        self.tree.root_of(node)
    }

    fn above(&self, node: Node) -> Option<(Node, u32)> {
        self.standing(node).above()
    }

    fn separated(&self, a: Node, b: Node) -> bool {
        self.tree.separated(a, b)
    }
}

impl<L: Ledger> Probe<L> for Forest {
    fn share(&self, a: Node, b: Node, steps: &mut Steps<L>) -> bool {
        steps.tick();
        self.points(a).meets(self.points(b))
    }
}
