ghost use Rattle.std.specs.Prelude.{◌≡◌, ◌≤◌, IfOk, IfSome, length};
ghost use Rattle.region_tree.specs.Needs.{AreNeeds};
ghost use Rattle.region_tree.specs.Rows.{NeedRows, TreeRows};
ghost use Rattle.region_tree.specs.Trees.{IsNode, IsPartition, IsRegion, root_at};

use lane_kernels::{Mode, Op};
use plain_values::Sequence;
use point_sets::{POINT_LIMIT, PointSet};
use region_tree::{Need, Needs, Node, Piece, RootId, Tree, TreeFault, interferes, within};
use std::alloc::{AllocError, Global};
use std::process::Abort;
use std::test::Fail;

const SUM: Mode = Mode::Reduce(Op::Sum);

const LEAST: Mode = Mode::Reduce(Op::Least);

/// What the definitions say of some rows, each by computing.
fn computed_rows()
    ensures needs { NeedRows }
    ensures trees { TreeRows }
{}

#[test]
fn definitions_compute(_rt: HostRuntime) {
    computed_rows();
}

/// A tree with one root, of the points 0 to 2.
fn small_tree(alloc: Global) -> Result<(Tree, RootId, Node), AllocError>
    ensures region { IfOk result (λ r. IsRegion r.0 r.2.0) }
    ensures root { IfOk result (λ r. r.1.0 ≡ root_at r.0 r.2.0) }
{
    let mut tree = Tree::new(alloc)?;
    let points = PointSet::range(alloc, 0, 3)?;
    let (root, region) = tree.add_root(points)?;
    Ok((tree, root, region))
}

/// Needs of all points of a region, one for each of the fields and modes.
fn needs_of(
    alloc: Global,
    tree: &Tree,
    root: RootId,
    node: Node,
    uses: &[(u8, Mode)],
) -> Result<Needs, AllocError>
    requires region { IsRegion tree.now node.0 }
    requires root { root.0 ≡ root_at tree.now node.0 }
    ensures { IfOk result (λ n. AreNeeds tree.now n.items) }
{
    let mut items = Sequence::new(alloc);
    for (field, mode) in uses {
        items.push(Need {
            root,
            node,
            field: *field,
            mode: *mode,
        })?;
    }
    Ok(Needs { items })
}

/// Needs of a tree's first region: a field for each mode, a few with several, and one with many.
fn uses_of_each_kind(alloc: Global) -> Result<Vec<(u8, Mode)>, AllocError> {
    let few = [
        (0, Mode::Read),
        (0, SUM),
        (1, LEAST),
        (2, Mode::Read),
        (3, Mode::Write),
        (4, SUM),
        (5, Mode::Reduce(Op::Product)),
        (6, Mode::Reduce(Op::Greatest)),
        (7, SUM),
        (7, SUM),
        (7, LEAST),
        (7, SUM),
    ];
    let mut uses = Vec::from_slice(alloc, few.as_slice())?;
    for _ in 0..10_000 {
        uses.push((8, LEAST))?;
    }
    Ok(uses)
}

/// Whether needs have parts of so many points and with these modes at a field of a root.
fn have_parts(
    tree: &Tree,
    needs: &Needs,
    root: RootId,
    field: u8,
    expected: &[(u32, Mode)],
) -> Result<bool, AllocError>
    requires { AreNeeds tree.now needs.now.items }
{
    let parts = needs.part(tree, root, field)?;
    let mut are_well = parts.len() == expected.len();
    for ((points, mode), want) in parts.iter().zip(expected) {
        are_well = are_well && (points.len(), *mode) == *want;
    }
    Ok(are_well)
}

#[test]
fn a_read_and_a_reduction_join_to_a_write(rt: HostRuntime) -> Result<(), Fail> {
    let alloc = rt.alloc();
    let uses = uses_of_each_kind(alloc)?;
    let (tree, root, region) = small_tree(alloc)?;
    let needs = needs_of(alloc, &tree, root, region, uses.as_slice())?;
    let rows: [(u8, &[(u32, Mode)]); 10] = [
        (0, &[(3, Mode::Write)]),
        (1, &[(3, LEAST)]),
        (2, &[(3, Mode::Read)]),
        (3, &[(3, Mode::Write)]),
        (4, &[(3, SUM)]),
        (5, &[(3, Mode::Reduce(Op::Product))]),
        (6, &[(3, Mode::Reduce(Op::Greatest))]),
        (7, &[(3, Mode::Write)]),
        (8, &[(3, LEAST)]),
        (9, &[]),
    ];
    for (field, expected) in rows {
        assert!(rt;
            have_parts(&tree, &needs, root, field, expected)?,
            "{field}"
        );
    }
    Ok(())
}

/// Whether two uses of one region interfere, and whether the first is within the second.
fn related(
    alloc: Global,
    tree: &Tree,
    root: RootId,
    region: Node,
    one: (u8, Mode),
    other: (u8, Mode),
) -> Result<(bool, bool), AllocError>
    requires region { IsRegion tree.now region.0 }
    requires root { root.0 ≡ root_at tree.now region.0 }
{
    let ours = needs_of(alloc, tree, root, region, &[one])?;
    let theirs = needs_of(alloc, tree, root, region, &[other])?;
    Ok((
        interferes(tree, &ours, &theirs),
        within(tree, &ours, &theirs),
    ))
}

#[test]
fn uses_of_one_region(rt: HostRuntime) -> Result<(), Fail> {
    let alloc = rt.alloc();
    let (tree, root, region) = small_tree(alloc)?;
    let rows = [
        ((0, Mode::Read), (0, Mode::Read), false, true),
        ((0, Mode::Read), (0, Mode::Write), true, true),
        ((0, Mode::Write), (0, Mode::Read), true, false),
        ((0, Mode::Write), (1, Mode::Write), false, false),
        ((0, SUM), (0, Mode::Write), true, true),
        ((0, Mode::Read), (0, SUM), true, false),
        ((0, SUM), (0, SUM), false, true),
        ((0, SUM), (0, LEAST), true, false),
    ];
    for (one, other, interfere, inside) in rows {
        let found = related(alloc, &tree, root, region, one, other)?;
        assert_eq!(rt; found, (interfere, inside));
    }
    Ok(())
}

/// A read of all points of a region, and a reduction of those of another one.
fn a_read_and_a_sum(
    alloc: Global,
    tree: &Tree,
    first: Node,
    second: Node,
) -> Result<Needs, AllocError>
    requires first { IsRegion tree.now first.0 }
    requires second { IsRegion tree.now second.0 }
    ensures { IfOk result (λ n. AreNeeds tree.now n.items) }
{
    let mut items = Sequence::new(alloc);
    items.push(Need {
        root: tree.root_of(first),
        node: first,
        field: 0,
        mode: Mode::Read,
    })?;
    items.push(Need {
        root: tree.root_of(second),
        node: second,
        field: 0,
        mode: SUM,
    })?;
    Ok(Needs { items })
}

/// A tree whose second root has the points 0 to below a bound, and the region of that root.
fn two_roots(alloc: Global, bound: u32) -> Result<(Tree, Node), AllocError>
    ensures { IfOk result (λ r. IsRegion r.0 r.1.0) }
{
    let (mut tree, _, _) = small_tree(alloc)?;
    let points = PointSet::range(alloc, 0, bound.min(POINT_LIMIT))?;
    let (_, region) = tree.add_root(points)?;
    Ok((tree, region))
}

/// A tree whose second root has two children that overlap: one with all its points, and one with
/// three.
fn two_children(alloc: Global) -> Result<Option<(Tree, Node, Node)>, TreeFault>
    ensures first { IfOk result (λ r. IfSome r (λ t. IsRegion t.0 t.1.0)) }
    ensures second { IfOk result (λ r. IfSome r (λ t. IsRegion t.0 t.2.0)) }
{
    let (mut tree, region) = two_roots(alloc, POINT_LIMIT)?;
    let sets = sets_of(alloc, &[(0, POINT_LIMIT), (1, 4)])?;
    if sets.len() != 2 {
        return Ok(None);
    }
    let partition = tree.add_partition(region, sets, false)?;
    match (tree.child(partition, 0), tree.child(partition, 1)) {
        (Some(first), Some(second)) => Ok(Some((tree, first, second))),
        _ => Ok(None),
    }
}

#[test]
fn parts_at_a_second_root(rt: HostRuntime) -> Result<(), Fail> {
    let alloc = rt.alloc();
    let Some((tree, first, second)) = two_children(alloc)? else {
        return Err(Fail::new("a child is missing"));
    };
    let needs = a_read_and_a_sum(alloc, &tree, first, second)?;
    let expected = [(4_194_301, Mode::Read), (3, Mode::Write)];
    assert!(rt; have_parts(&tree, &needs, RootId(1), 0, &expected)?);
    Ok(())
}

/// What an answer tells: two colours and a point that they share, a colour with one that its set has
/// outside of the region, or nothing.
fn told(answer: Result<Node, TreeFault>) -> Result<Option<(u32, Option<u32>, u32)>, AllocError> {
    match answer {
        Ok(_) => Ok(None),
        Err(TreeFault::NotWithin { colour, point }) => Ok(Some((colour, None, point))),
        Err(TreeFault::NotDisjoint { a, b, point }) => Ok(Some((a, Some(b), point))),
        Err(TreeFault::Memory(error)) => Err(error),
    }
}

/// What is told of a partition of four points into the sets of some ranges.
fn parted(
    rt: &impl Abort,
    alloc: Global,
    ranges: &[(u32, u32)],
    disjoint: bool,
) -> Result<Option<(u32, Option<u32>, u32)>, AllocError> {
    let sets = sets_of(alloc, ranges)?;
    assert!(rt; sets.len() < 10);
    let (mut tree, region) = two_roots(alloc, 4)?;
    told(tree.add_partition(region, sets, disjoint))
}

#[test]
fn partitions_are_made_or_refused(rt: HostRuntime) -> Result<(), Fail> {
    let alloc = rt.alloc();
    let rows: [(&[(u32, u32)], bool, Option<(u32, Option<u32>, u32)>); 9] = [
        (&[], false, None),
        (&[], true, None),
        (&[(0, 0), (0, 0)], true, None),
        (&[(0, 2), (2, 4)], true, None),
        (&[(0, 2), (2, 4)], false, None),
        (&[(0, 3), (1, 4)], true, Some((0, Some(1), 1))),
        (&[(0, 3), (1, 4)], false, None),
        (&[(0, 3), (0, 3), (9, 10)], true, Some((2, None, 9))),
        (&[(0, 3), (2, 5)], false, Some((1, None, 4))),
    ];
    for (ranges, disjoint, want) in rows {
        let answer = parted(&rt, alloc, ranges, disjoint)?;
        assert_eq!(rt; answer, want, "{ranges:?} {disjoint}");
    }
    Ok(())
}

/// The sets of some ranges.
fn sets_of(alloc: Global, ranges: &[(u32, u32)]) -> Result<Vec<PointSet>, AllocError> {
    let mut sets = Vec::new(alloc);
    for (first, end) in ranges {
        sets.push(PointSet::range(alloc, *first, (*end).min(POINT_LIMIT))?)?;
    }
    Ok(sets)
}

/// Whether a root that is added, of up to two points, has the next numbers.
fn is_next(alloc: Global, tree: &mut Tree, number: u32) -> Result<bool, AllocError> {
    let next = tree.next();
    let points = PointSet::range(alloc, 0, number % 3)?;
    Ok(tree.add_root(points)? == next)
}

#[test]
fn ten_thousand_roots(rt: HostRuntime) -> Result<(), Fail> {
    let alloc = rt.alloc();
    let mut tree = Tree::new(alloc)?;
    for number in 0..10_000 {
        assert!(rt; is_next(alloc, &mut tree, number)?, "{number}");
    }
    assert_eq!(rt; tree.next(), (RootId(10_000), Node(10_000)));
    Ok(())
}

/// A partition of a region into one child with all its points, and that child.
fn deepened(alloc: Global, tree: &mut Tree, region: Node) -> Result<Option<Node>, TreeFault>
    requires { IsRegion tree.old region.0 }
    ensures { IfOk result (λ r. IfSome r (λ n. IsRegion tree.new n.0)) }
{
    let points = tree.set(region).copy()?;
    let mut sets = Vec::new(alloc);
    sets.push(points).map_err(AllocError::from)?;
    let partition = tree.add_partition(region, sets, true)?;
    Ok(tree.child(partition, 0))
}

#[test]
fn a_tree_of_depth_20(rt: HostRuntime) -> Result<(), Fail> {
    let alloc = rt.alloc();
    let (mut tree, root, top) = small_tree(alloc)?;
    let mut region = top;
    for _ in 0..20 {
        let Some(child) = deepened(alloc, &mut tree, region)? else {
            return Err(Fail::new("there is no child"));
        };
        region = child;
    }
    let last = (tree.root_of(region), tree.set(region).len());
    assert_eq!(rt; (tree.next(), last), ((RootId(1), Node(41)), (root, 3)));
    Ok(())
}

/// Sets of every fourth point, one for each colour.
fn every_fourth(alloc: Global, colours: u32) -> Result<Vec<PointSet>, AllocError>
    requires { colours ≤ 65536 }
    ensures { IfOk result (λ v. length v.items ≡ colours) }
{
    let mut sets = Vec::new(alloc);
    for colour in 0..colours {
        sets.push(PointSet::range(alloc, 4 * colour, 4 * colour + 1)?)?;
    }
    Ok(sets)
}

/// Whether a tree's last partition has 65536 children in order, which are told apart where it is disjoint.
fn children_are_in_order(tree: &Tree, region: Node, partition: Node, disjoint: bool) -> bool
    requires region { IsNode tree.now region.0 }
    requires partition { IsPartition tree.now partition.0 }
{
    let (Some(first), Some(last)) = (tree.child(partition, 0), tree.child(partition, 65_535)) else {
        return false;
    };
    let separated = [
        tree.separated(first, last),
        tree.separated(first, first),
        tree.separated(region, last),
    ];
    tree.next() == (RootId(2), Node(65_539))
        && tree.child(partition, 65_536) == None
        && last == Node(65_538)
        && tree.set(last).at(0) == Some(262_140)
        && separated == [disjoint, false, false]
}

#[test]
fn a_partition_of_65536_sets(rt: HostRuntime) -> Result<(), Fail> {
    let alloc = rt.alloc();
    for disjoint in [true, false] {
        let sets = every_fourth(alloc, 65_536)?;
        let (mut tree, region) = two_roots(alloc, 262_144)?;
        let partition = tree.add_partition(region, sets, disjoint)?;
        assert!(rt;
            children_are_in_order(&tree, region, partition, disjoint),
            "{disjoint}"
        );
    }
    Ok(())
}

#[test]
fn a_piece_has_a_value_for_each_point(rt: HostRuntime) -> Result<(), Fail> {
    let alloc = rt.alloc();
    let mut piece = Piece {
        points: PointSet::from_sorted(alloc, &[4])?,
        mode: Mode::Read,
        values: Sequence::from_slice(alloc, &[7])?,
    };
    if piece.len() == 1 {
        piece.set(0, 9);
    }
    assert_eq!(rt;
        (piece.len(), piece.values.as_slice()[..] == [9]),
        (1, true)
    );
    Ok(())
}
