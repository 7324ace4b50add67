//! Which types fit which: what may stand where a value of a type is wanted, and when two region
//! types agree (the type system of Regent, SC 2015, in this profile).

ghost use Rattle.std.specs.Prelude.{◌≡◌, Some};
ghost use Rattle.std.specs.List.{list_all};
ghost use Rattle.static_types.specs.Partitions.{partition_fits};
ghost use Rattle.regent_tree.specs.Facts.{alike};
ghost use Rattle.regent_tree.specs.Typing.{has_wild};
ghost use Rattle.check_rules.specs.types.Fitting.{agree, agree_all, is_region_like, has_position, pointer_fits, fits_known, fits, fits_param};
ghost use Rattle.check_rules.specs.types.Sorts.{same_kind};

use crate::sorts::{is_index, is_integer, is_partition, is_region, is_truth, is_unknown};
use constraint_check::Facts;
use regent_tree::{Kind, Reach, StaticType, Term};

/// Whether two regions are written alike.
pub fn alike(one: &Term, other: &Term) -> bool
    ensures { result ≡ alike one.now other.now }
{
    one == other
}

/// Whether two regions in lists of arguments agree; `wild` agrees with everything.
pub fn agree(one: &Reach, other: &Reach) -> bool
    ensures { result ≡ agree one.now other.now }
{
    match (one, other) {
        (Some(a), Some(b)) => alike(a, b),
        _ => true,
    }
}

/// Whether arguments of field spaces agree, place by place.
pub fn agree_all(args: &[Reach], others: &[Reach]) -> bool
    ensures { result ≡ agree_all args.now others.now }
{
    for (place, one) in args.iter().enumerate() {
        let Some(other) = others.get(place) else {
            return true;
        };
        if !agree(one, other) {
            return false;
        }
    }
    true
}

/// Whether a type is of a region of this kind, field space and field space arguments.
pub fn is_region_like(kind: Kind, space: u32, args: &[Reach], t: &StaticType) -> bool
    ensures { result ≡ is_region_like kind space args.now t.now }
{
    match t {
        StaticType::Region {
            kind: other_kind,
            space: other_space,
            args: others,
            ..
        } => kind == *other_kind && space == *other_space && agree_all(args, others.as_slice()),
        _ => false,
    }
}

/// Whether `wild` is among a pointer type's regions.
pub fn has_wild(regions: &[Reach]) -> bool
    ensures { result ≡ has_wild regions.now }
{
    for region in regions {
        if region.is_none() {
            return true;
        }
    }
    false
}

/// Whether a region lies within one of those that a list names; `wild` lies within none.
fn has_position(facts: &Facts, targets: &[Reach], region: &Reach) -> bool
    ensures { result ≡ has_position facts.now targets.now region.now }
{
    match region {
        None => false,
        Some(a) => lies_in_one(facts, targets, a),
    }
}

fn lies_in_one(facts: &Facts, targets: &[Reach], a: &Term) -> bool
    ensures { result ≡ has_position facts.now targets.now (Some a.now) }
{
    for target in targets {
        if let Some(b) = target
            && facts.subregion(a, b)
        {
            return true;
        }
    }
    false
}

fn all_lie_in_one(facts: &Facts, targets: &[Reach], regions: &[Reach]) -> bool
    ensures { result ≡ list_all (has_position facts.now targets.now) regions.now }
{
    regions
        .iter()
        .all(|region| has_position(facts, targets, region))
}

/// Whether a pointer into these regions fits a type: its index kind, or a pointer type whose list
/// holds `wild` or for each of the regions one within which it derivably lies.
fn pointer_fits(
    facts: &Facts,
    kind: Kind,
    space: u32,
    regions: &[Reach],
    wanted: &StaticType,
) -> bool
    ensures { result ≡ pointer_fits facts.now kind space regions.now wanted.now }
{
    match wanted {
        StaticType::Index(other) => kind == *other,
        StaticType::Pointer {
            kind: other,
            space: other_space,
            regions: targets,
            ..
        } => {
            let targets = targets.as_slice();
            kind == *other
                && space == *other_space
                && (has_wild(targets) || all_lie_in_one(facts, targets, regions))
        }
        _ => false,
    }
}

fn partition_fits(disjoint: bool, parent: u32, wanted: &StaticType) -> bool
    ensures { result ≡ partition_fits disjoint parent wanted.now }
{
    match wanted {
        StaticType::Partition {
            disjoint: asked,
            parent: other,
            ..
        } => (disjoint || !*asked) && parent == *other,
        _ => false,
    }
}

/// Whether a type fits another, where that one is known.
fn fits_known(facts: &Facts, t: &StaticType, wanted: &StaticType) -> bool
    ensures { result ≡ fits_known facts.now t.now wanted.now }
{
    match t {
        StaticType::Integer(_) => is_integer(wanted) || is_index(wanted),
        StaticType::Truth => is_truth(wanted),
        StaticType::Index(kind) => matches!(wanted, StaticType::Index(other) if kind == other),
        StaticType::Pointer {
            kind,
            space,
            regions,
            ..
        } => pointer_fits(facts, *kind, *space, regions.as_slice(), wanted),
        StaticType::Ispace(kind) => matches!(wanted, StaticType::Ispace(other) if kind == other),
        StaticType::Region {
            kind,
            space,
            args,
            ..
        } => is_region_like(*kind, *space, args.as_slice(), wanted),
        StaticType::Partition {
            disjoint,
            parent,
            ..
        } => partition_fits(*disjoint, *parent, wanted),
        StaticType::Nothing => false,
        StaticType::Unknown => true,
    }
}

/// Whether a type fits another. One that is unknown fits everything, and everything fits it.
pub fn fits(facts: &Facts, t: &StaticType, wanted: &StaticType) -> bool
    ensures { result ≡ fits facts.now t.now wanted.now }
{
    is_unknown(wanted) || fits_known(facts, t, wanted)
}

/// Whether an argument's type fits a parameter's. Whether regions and partitions are the right ones
/// is another question.
pub fn fits_param(facts: &Facts, t: &StaticType, wanted: &StaticType) -> bool
    ensures { result ≡ fits_param facts.now t.now wanted.now }
{
    fits(facts, t, wanted)
        || is_region(t) && is_region(wanted)
        || is_partition(t) && is_partition(wanted)
}
