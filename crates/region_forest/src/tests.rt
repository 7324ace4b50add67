//! A forest with a disjoint and an aliased partition of one region, and one with many colours.

ghost use Rattle.std.specs.Prelude.{◌≡◌, ◌<◌, ◌≤◌, IfOk, IfSome, length};
ghost use Rattle.region_tree.specs.Trees.{IsNode, IsPartition, IsRegion};

use crate::Forest;
use point_sets::PointSet;
use region_finder::{Paths, Probe, Steps};
use region_tree::{Node, RootId, TreeFault};
use std::alloc::{AllocError, Global};
use std::marker::Brand;
use std::sync::ledger::{Blank, Ledger};
use std::test::Fail;

/// The sets of some ranges.
fn sets_of(alloc: Global, ranges: &[(u32, u32)]) -> Result<Vec<PointSet>, AllocError> {
    let mut sets = Vec::new(alloc);
    for (first, end) in ranges {
        sets.push(PointSet::range(alloc, *first, (*end).min(100))?)?;
    }
    Ok(sets)
}

/// A forest whose second root has the points 0 to 3, and the region of that root.
fn two_roots(alloc: Global) -> Result<(Forest, Node), AllocError>
    ensures { IfOk result (λ r. IsRegion r.0 r.1.0) }
{
    let mut forest = Forest::new(alloc)?;
    forest.add_root(PointSet::range(alloc, 0, 4)?)?;
    let (_, region) = forest.add_root(PointSet::range(alloc, 0, 4)?)?;
    Ok((forest, region))
}

/// A partition of the second root into two, and its two children.
fn two_children(
    alloc: Global,
    ranges: &[(u32, u32)],
    disjoint: bool,
) -> Result<Option<(Forest, Node, Node)>, TreeFault>
    ensures first { IfOk result (λ r. IfSome r (λ t. IsRegion t.0 t.1.0)) }
    ensures second { IfOk result (λ r. IfSome r (λ t. IsRegion t.0 t.2.0)) }
{
    let (mut forest, region) = two_roots(alloc)?;
    let sets = sets_of(alloc, ranges)?;
    if sets.len() != 2 {
        return Ok(None);
    }
    let partition = forest.add_partition(region, sets, disjoint)?;
    match (
        forest.tree().child(partition, 0),
        forest.tree().child(partition, 1),
    ) {
        (Some(first), Some(second)) => Ok(Some((forest, first, second))),
        _ => Ok(None),
    }
}

/// Whether two nodes share a point.
fn share<L: Ledger>(blank: Blank, forest: &Forest, a: Node, b: Node) -> bool
    requires name { blank.name ≡ L.name }
    requires parts { blank.parts ≡ L.parts }
    requires some { 0 < L.parts }
    requires first { IsNode forest.now a.0 }
    requires second { IsNode forest.now b.0 }
{
    let mut steps = Steps::<L>::new(blank);
    forest.share(a, b, &mut steps)
}

/// What stands above a node, what stands above that, and so on.
fn way_up<P: Paths>(alloc: Global, forest: &P, node: Node) -> Result<Vec<(Node, u32)>, AllocError>
    requires { IsNode (P.forest forest.now) node.0 }
{
    let mut way = Vec::new(alloc);
    let mut at = node;
    while let Some(step) = forest.above(at) {
        way.push(step)?;
        at = step.0;
    }
    Ok(way)
}

#[test]
fn ways_up_and_points_shared(rt: HostRuntime) -> Result<(), Fail> {
    let alloc = rt.alloc();
    for (ranges, disjoint, parted, shared) in [
        ([(0, 2), (2, 4)], true, true, false),
        ([(0, 2), (2, 4)], false, false, false),
        ([(0, 3), (1, 4)], false, false, true),
    ] {
        let Some((forest, first, second)) = two_children(alloc, &ranges, disjoint)? else {
            return Err(Fail::new("a child is missing"));
        };
        let way = way_up(alloc, &forest, second)?;
        assert_eq!(rt; way.as_slice(), [(Node(2), 1), (Node(1), 0)].as_slice());
        assert_eq!(rt; forest.root_of(second), RootId(1));
        assert_eq!(rt; forest.separated(first, second), parted);
        assert_eq!(rt;
            share::<Brand>(Blank::new(1), &forest, first, second),
            shared
        );
    }
    Ok(())
}

#[test]
fn refused_partitions_leave_a_forest(rt: HostRuntime) -> Result<(), Fail> {
    let alloc = rt.alloc();
    let (mut forest, region) = two_roots(alloc)?;
    let sets = sets_of(alloc, &[(0, 3), (1, 4)])?;
    assert!(rt; sets.len() < 10);
    assert!(rt;
        matches!(
            forest.add_partition(region, sets, true),
            Err(TreeFault::NotDisjoint {
                a: 0,
                b: 1,
                point: 1
            })
        )
    );
    assert_eq!(rt; forest.tree().next(), (RootId(2), Node(2)));
    assert_eq!(rt;
        forest.add_root(PointSet::range(alloc, 0, 4)?)?,
        (RootId(2), Node(2))
    );
    assert_eq!(rt; forest.above(Node(2)), None);
    Ok(())
}

#[test]
fn a_partition_of_1024_colours(rt: HostRuntime) -> Result<(), Fail> {
    let alloc = rt.alloc();
    let mut forest = Forest::new(alloc)?;
    let (_, region) = forest.add_root(PointSet::range(alloc, 0, 1_024)?)?;
    let sets = single_points(alloc, 1_024)?;
    let partition = forest.add_partition(region, sets, true)?;
    let Some(last) = forest.tree().child(partition, 1_023) else {
        return Err(Fail::new("a child is missing"));
    };
    assert_eq!(rt; forest.above(last), Some((partition, 1_023)));
    assert!(rt; share::<Brand>(Blank::new(1), &forest, last, partition));
    Ok(())
}

/// Sets of one point each.
fn single_points(alloc: Global, colours: u32) -> Result<Vec<PointSet>, AllocError>
    requires { colours ≤ 1024 }
    ensures { IfOk result (λ v. length v.items ≡ colours) }
{
    let mut sets = Vec::new(alloc);
    for colour in 0..colours {
        sets.push(PointSet::range(alloc, colour, colour + 1)?)?;
    }
    Ok(sets)
}
