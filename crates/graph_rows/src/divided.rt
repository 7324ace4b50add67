//! The forest of all rows.

ghost use Rattle.std.specs.Prelude.{◌≡◌};

use point_sets::PointSet;
use region_forest::Forest;
use region_tree::{Node, TreeFault};
use std::alloc::{AllocError, Global};

/// The sets of some ranges.
fn sets_of(alloc: Global, ranges: &[(u32, u32)]) -> Result<Vec<PointSet>, AllocError> {
    let mut sets = Vec::new(alloc);
    for (first, end) in ranges {
        sets.push(PointSet::range(alloc, *first, (*end).min(8))?)?;
    }
    Ok(sets)
}

/// Divides a region into such sets.
fn divide(
    alloc: Global,
    forest: &mut Forest,
    region: Node,
    ranges: &[(u32, u32)],
    disjoint: bool,
) -> Result<(), TreeFault> {
    let sets = sets_of(alloc, ranges)?;
    if forest.is_region(region) && sets.len() < 10 {
        forest.add_partition(region, sets, disjoint)?;
    }
    Ok(())
}

/// Two roots of eight points, and what they are divided into.
fn divide_all(alloc: Global) -> Result<Forest, TreeFault> {
    let mut forest = Forest::new(alloc)?;
    forest.add_root(PointSet::range(alloc, 0, 8)?)?;
    let quarters = [(0, 2), (2, 4), (4, 6), (6, 8)];
    divide(alloc, &mut forest, Node(0), &quarters, true)?;
    divide(alloc, &mut forest, Node(0), &[(0, 3), (2, 5)], false)?;
    divide(alloc, &mut forest, Node(2), &[(0, 1), (1, 2)], true)?;
    forest.add_root(PointSet::range(alloc, 0, 8)?)?;
    divide(alloc, &mut forest, Node(12), &[(0, 4), (4, 8)], false)?;
    Ok(forest)
}

/// A forest of two roots of eight points. The first, node 0, has four disjoint colours, nodes 2 to 5, two aliased
/// ones that share a point, nodes 7 and 8, and its first colour has two disjoint ones, nodes 10 and 11. The
/// second, node 12, has two aliased ones that share none, nodes 14 and 15.
pub fn divided(alloc: Global) -> Result<Forest, AllocError> {
    divide_all(alloc).map_err(|_| AllocError)
}
