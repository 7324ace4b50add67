//! Set operations on partitions, colour by colour.

ghost use Rattle.std.specs.Prelude.{◌≡◌, ◌⊎◌, IfOk, List, ℕ};
ghost use Rattle.regent_tree.specs.Partitions.{both_sets, each_with, either_flag, either_sets};
ghost use Rattle.regent_tree.specs.Partitions.{minus_flag, minus_sets};
ghost use Rattle.partitions.specs.Laws.{ArePartsOf, NoneShared};
ghost use Rattle.partitions.specs.Laws.{BothFilters, EitherFilters, WithoutFilters};
ghost use Rattle.partitions.specs.Pairwise.{made_by};

use point_sets::PointSet;
use std::alloc::{AllocError, Global};

/// `p & q`: the points in `p[c]` and in `q[c]`. The colours are those of `p`, and one that `q`
/// lacks counts as empty. `disjoint` says that p's sets or q's share no points.
pub fn both(
    alloc: Global,
    p: &[PointSet],
    q: &[PointSet],
    disjoint: bool,
) -> Result<(Vec<PointSet>, bool), AllocError>
    ensures sets { IfOk result (λ r. r.0.items ≡ both_sets p.now q.now) }
    ensures flag { IfOk result (λ r. r.1 ≡ disjoint) }
    ensures filters { BothFilters }
    ensures parts { (parent : List ℕ) → ArePartsOf parent p.now
        → IfOk result (λ r. ArePartsOf parent r.0.items) }
    ensures apart { NoneShared p.now ⊎ NoneShared q.now
        → IfOk result (λ r. NoneShared r.0.items) }
{
    let sets = colour_by_colour(alloc, Operation::Both, p, q)?;
    Ok((sets, disjoint))
}

/// `p | q`: the points in `p[c]` or in `q[c]`, with colours as in `both`.
pub fn either_of(
    alloc: Global,
    p: &[PointSet],
    q: &[PointSet],
) -> Result<(Vec<PointSet>, bool), AllocError>
    ensures sets { IfOk result (λ r. r.0.items ≡ either_sets p.now q.now) }
    ensures flag { IfOk result (λ r. r.1 ≡ either_flag) }
    ensures filters { EitherFilters }
    ensures parts { (parent : List ℕ) → ArePartsOf parent p.now → ArePartsOf parent q.now
        → IfOk result (λ r. ArePartsOf parent r.0.items) }
{
    let sets = colour_by_colour(alloc, Operation::Either, p, q)?;
    Ok((sets, false))
}

/// `p - q`: the points in `p[c]` and not in `q[c]`, with colours as in `both`. `disjoint` says that
/// p's sets share no points.
pub fn without(
    alloc: Global,
    p: &[PointSet],
    q: &[PointSet],
    disjoint: bool,
) -> Result<(Vec<PointSet>, bool), AllocError>
    ensures sets { IfOk result (λ r. r.0.items ≡ minus_sets p.now q.now) }
    ensures flag { IfOk result (λ r. r.1 ≡ minus_flag disjoint) }
    ensures filters { WithoutFilters }
    ensures parts { (parent : List ℕ) → ArePartsOf parent p.now
        → IfOk result (λ r. ArePartsOf parent r.0.items) }
    ensures apart { NoneShared p.now → IfOk result (λ r. NoneShared r.0.items) }
{
    let sets = colour_by_colour(alloc, Operation::Without, p, q)?;
    Ok((sets, disjoint))
}

/// An operation on two sets.
#[derive(Clone, Copy, Debug)]
enum Operation {
    Both,
    Either,
    Without,
}

impl Operation {
    fn at(self, left: &PointSet, right: &PointSet) -> Result<PointSet, AllocError>
        ensures { IfOk result (λ r. r ≡ made_by self left.now right.now) }
    {
        match self {
            Operation::Both => left.meet(right),
            Operation::Either => left.union(right),
            Operation::Without => left.minus(right),
        }
    }
}

/// The operation at each colour of `p`.
fn colour_by_colour(
    alloc: Global,
    operation: Operation,
    p: &[PointSet],
    q: &[PointSet],
) -> Result<Vec<PointSet>, AllocError>
    ensures { IfOk result (λ r. r.items ≡ each_with (made_by operation) p.now q.now) }
{
    let nothing = PointSet::empty(alloc)?;
    let mut sets = Vec::with_capacity(alloc, p.len())?;
    for (colour, left) in p.iter().enumerate() {
        let right = q.get(colour).unwrap_or(&nothing);
        sets.push(operation.at(left, right)?)?;
    }
    Ok(sets)
}
