//! Needs with the ways up from their nodes.

ghost use Rattle.std.specs.Prelude.{◌≡◌, IfOk, map, reverse};
ghost use Rattle.region_tree.specs.Needs.{AreNeeds, IsNeed};
ghost use Rattle.region_tree.specs.Trees.{IsNode};
ghost use Rattle.region_finder.specs.Forests.{IsForest, way_up};
ghost use Rattle.region_finder.specs.Listings.{covers, is_covered, placed};

use crate::covers::covers;
use region_finder::Paths;
use region_tree::{Need, Node};
use smallvec::SmallVec;
use std::alloc::{AllocError, Global};
use std::marker::Model;

/// A need with the way up from its node. Most ways are short, and stay inline.
#[derive(Drop)]
pub struct Placed {
    need: Need,
    way: SmallVec<(Node, u32), 4>,
}

impl Model for Placed {
    ghost use Rattle.region_finder.specs.Listings.{PlacedNeed};

    ghost Value = { PlacedNeed };

    ghost view = { λ p. record { need = p.need; way = p.way.items } };
}

impl Placed {
    /// A need of a tree's region.
    pub fn new<P: Paths>(alloc: Global, tree: &P, need: &Need) -> Result<Placed, AllocError>
        requires { IsNeed (P.forest tree.now) need.now }
        ensures { IfOk result (λ p. p ≡ placed (P.forest tree.now) need.now) }
    {
        let way = way_up(alloc, tree, need.node)?;
        Ok(Placed { need: *need, way })
    }

    pub fn need(&self) -> &Need
        ensures { result.now ≡ self.now.need }
    {
        &self.need
    }

    /// Whether a need writes this one's field at all of its points.
    fn is_covered_by(&self, by: &Need) -> bool
        ensures { result ≡ covers self.now by.now }
    {
        covers(by, &self.need, self.way.as_slice())
    }

    /// Whether one of these needs does.
    pub fn is_covered(&self, needs: &[Need]) -> bool
        ensures { result ≡ is_covered needs.now self.now }
    {
        needs.iter().any(|by| self.is_covered_by(by))
    }
}

/// The way from the root's region down to a node: what stands above it, from the top.
pub fn way_down<P: Paths>(
    alloc: Global,
    tree: &P,
    node: Node,
) -> Result<SmallVec<(Node, u32), 4>, AllocError>
    requires { IsNode (P.forest tree.now) node.0 }
    ensures way { IfOk result (λ w. w.items ≡ reverse (way_up (P.forest tree.now) node.0)) }
    ensures forest { IfOk result (λ _. IsForest (P.forest tree.now)) }
{
    let mut way = way_up(alloc, tree, node)?;
    way.as_mut_slice().reverse();
    Ok(way)
}

/// What stands above a node, what stands above that, and so on.
fn way_up<P: Paths>(
    alloc: Global,
    tree: &P,
    node: Node,
) -> Result<SmallVec<(Node, u32), 4>, AllocError>
    requires { IsNode (P.forest tree.now) node.0 }
    ensures way { IfOk result (λ w. w.items ≡ way_up (P.forest tree.now) node.0) }
    ensures forest { IfOk result (λ _. IsForest (P.forest tree.now)) }
{
    let mut way = SmallVec::new(alloc);
    let mut at = node;
    while let Some(step) = tree.above(at) {
        way.push(step)?;
        at = step.0;
    }
    Ok(way)
}

/// All needs of a list.
pub fn place_all<P: Paths>(
    alloc: Global,
    tree: &P,
    needs: &[Need],
) -> Result<Vec<Placed>, AllocError>
    requires { AreNeeds (P.forest tree.now) needs.now }
    ensures { IfOk result (λ v. v.items ≡ map (placed (P.forest tree.now)) needs.now) }
{
    let mut all = Vec::new(alloc);
    for need in needs {
        all.push(Placed::new(alloc, tree, need)?)?;
    }
    Ok(all)
}
