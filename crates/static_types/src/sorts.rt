//! What sort of thing a static type is of.

ghost use Rattle.std.specs.Prelude.{◌≡◌, IfOk};
ghost use Rattle.regent_tree.specs.Typing.{is_pointer};
ghost use Rattle.check_rules.specs.types.Sorts as sort;
ghost use Rattle.check_rules.specs.rules.Places.{is_value_type};

use plain_values::Sequence;
use regent_tree::{Kind, Reach, StaticType};
use std::alloc::{AllocError, Global};

pub fn is_unknown(t: &StaticType) -> bool
    ensures { result ≡ sort.is_unknown_type t.now }
{
    matches!(t, StaticType::Unknown)
}

pub fn is_integer(t: &StaticType) -> bool
    ensures { result ≡ sort.is_integer t.now }
{
    matches!(t, StaticType::Integer(_))
}

pub fn is_truth(t: &StaticType) -> bool
    ensures { result ≡ sort.is_truth t.now }
{
    matches!(t, StaticType::Truth)
}

pub fn is_index(t: &StaticType) -> bool
    ensures { result ≡ sort.is_index t.now }
{
    matches!(t, StaticType::Index(_))
}

pub fn is_pointer(t: &StaticType) -> bool
    ensures { result ≡ is_pointer t.now }
{
    matches!(t, StaticType::Pointer { .. })
}

pub fn is_region(t: &StaticType) -> bool
    ensures { result ≡ sort.is_region t.now }
{
    matches!(t, StaticType::Region { .. })
}

pub fn is_partition(t: &StaticType) -> bool
    ensures { result ≡ sort.is_partition t.now }
{
    matches!(t, StaticType::Partition { .. })
}

pub fn is_space(t: &StaticType) -> bool
    ensures { result ≡ sort.is_space t.now }
{
    matches!(t, StaticType::Ispace(_))
}

/// An integer, an index, or a pointer, which stands for its point number.
pub fn is_number(t: &StaticType) -> bool
    ensures { result ≡ sort.is_number t.now }
{
    matches!(
        t,
        StaticType::Integer(_) | StaticType::Index(_) | StaticType::Pointer { .. }
    )
}

/// What a variable or a field may hold: a number or a truth.
pub fn is_value(t: &StaticType) -> bool
    ensures { result ≡ is_value_type t.now }
{
    is_number(t) || is_truth(t)
}

/// A region, a partition or an index space, which has no place among values.
pub fn is_collection(t: &StaticType) -> bool
    ensures { result ≡ sort.is_collection t.now }
{
    is_region(t) || is_partition(t) || is_space(t)
}

/// An index space of unstructured points, which can't be colours.
pub fn is_unstructured(t: &StaticType) -> bool
    ensures { result ≡ sort.is_unstructured t.now }
{
    matches!(t, StaticType::Ispace(Kind::Ptr))
}

pub fn copy_reaches(alloc: Global, reaches: &Sequence<Reach>) -> Result<Sequence<Reach>, AllocError>
    ensures { IfOk result (λ r. r ≡ reaches.now) }
{
    Sequence::from_slice(alloc, reaches.as_slice())
}

pub fn copy_type(alloc: Global, t: &StaticType) -> Result<StaticType, AllocError>
    ensures { IfOk result (λ r. r ≡ t.now) }
{
    Ok(match t {
        StaticType::Integer(width) => StaticType::Integer(*width),
        StaticType::Truth => StaticType::Truth,
        StaticType::Index(kind) => StaticType::Index(*kind),
        StaticType::Pointer {
            kind,
            space,
            args,
            regions,
        } => StaticType::Pointer {
            kind: *kind,
            space: *space,
            args: copy_reaches(alloc, args)?,
            regions: copy_reaches(alloc, regions)?,
        },
        StaticType::Ispace(kind) => StaticType::Ispace(*kind),
        StaticType::Region {
            kind,
            space,
            args,
            term,
        } => StaticType::Region {
            kind: *kind,
            space: *space,
            args: copy_reaches(alloc, args)?,
            term: *term,
        },
        StaticType::Partition {
            disjoint,
            parent,
            own,
        } => StaticType::Partition {
            disjoint: *disjoint,
            parent: *parent,
            own: *own,
        },
        StaticType::Nothing => StaticType::Nothing,
        StaticType::Unknown => StaticType::Unknown,
    })
}
