//! The steps of accesses: fields and elements.

ghost use Rattle.std.specs.Prelude.{◌≡◌, not};
ghost use Rattle.regent_tree.specs.Plain.{expression_of};
ghost use Rattle.regent_tree.specs.PlainProgram.{tree_of};
ghost use Rattle.regent_tree.specs.StaticTypes.{field_type};
ghost use Rattle.regent_tree.specs.Typing.{type_of_element, type_of_field};
ghost use Rattle.regent_tree.specs.declared.typing.StaticType.TheVariants.{Pointer as pointer_type, Unknown as unknown_type};
ghost use Rattle.check_rules.specs.first.FirstInExpressions.{first_of_taking};
ghost use Rattle.check_rules.specs.types.KnownTypes.{known_type_after_step};
ghost use Rattle.check_rules.specs.types.Lookup.{is_colors};
ghost use Rattle.check_rules.specs.types.TypedForms.{element_of, field_of};
ghost use Rattle.check_rules.specs.rules.Types.{is_ill_typed_step};
ghost use Rattle.static_types.specs.Telling.{Tells};
ghost use Rattle.check_expressions.specs.Seen.{seen};
ghost use Rattle.check_expressions.specs.Sites.{tree_at};

use crate::declared::Declared;
use crate::scope::Scope;
use crate::site::Site;
use crate::spots;
use check_rules::Rule;
use regent_tree::{Expr, Kind, Name, Reach, StaticType};
use static_types::{
    Stop, has_wild, is_number, is_partition, is_region, is_unknown, type_of_element,
};
use std::alloc::Global;

/// Whether a name is `colors`, which can be asked of a partition.
pub fn is_colors(name: &Name) -> bool
    ensures { result ≡ is_colors name.now }
{
    name.as_slice() == b"colors".as_slice()
}

/// The type of `x.f`, where x is a pointer into a field space with these arguments.
fn after_field(
    alloc: Global,
    declared: &Declared,
    space: u32,
    args: &[Reach],
    regions: &[Reach],
    name: &Name,
    kind: Kind,
) -> Result<StaticType, Stop>
    ensures { Tells (λ u. u ≡ known_type_after_step (tree_of declared.now) (field_of (pointer_type kind space args.now regions.now) name.now)
        (field_type (tree_of declared.now) space args.now name.now)) result
        (first_of_taking (tree_of declared.now) (field_of (pointer_type kind space args.now regions.now) name.now)) }
{
    let Some((_, field)) = declared.field(space, name) else {
        return Err(Stop::Breach(Rule::Name));
    };
    Stop::at(has_wild(regions), Rule::Pointer)?;
    Ok(declared.field_said(alloc, space, args, &field.term)?)
}

/// The type of `x.f` by the type of x.
pub fn field_step(
    alloc: Global,
    declared: &Declared,
    t: &StaticType,
    name: &Name,
) -> Result<StaticType, Stop>
    ensures { Tells (λ u. u ≡ known_type_after_step (tree_of declared.now) (field_of t.now name.now)
        (type_of_field (tree_of declared.now) t.now name.now)) result
        (first_of_taking (tree_of declared.now) (field_of t.now name.now)) }
{
    match t {
        StaticType::Pointer {
            kind,
            space,
            args,
            regions,
        } => after_field(
            alloc,
            declared,
            *space,
            args.as_slice(),
            regions.as_slice(),
            name,
            *kind,
        ),
        StaticType::Partition { .. } => {
            Stop::at(!is_colors(name), Rule::Name)?;
            Ok(StaticType::Ispace(Kind::Int1d))
        }
        StaticType::Unknown => Ok(StaticType::Unknown),
        _ => Err(Stop::Breach(Rule::Type)),
    }
}

/// The type of `x[e]` by the types of x and e.
#[tactic(auto, using(static_types::proofs::ElementTypes::element_by_names))]
pub fn element_step(
    site: &Site,
    scope: &Scope,
    t: &StaticType,
    e: &Expr,
    place: &StaticType,
) -> Result<StaticType, Stop>
    ensures { Tells (λ u. u ≡ known_type_after_step (tree_at site.now) (element_of t.now place.now)
        (type_of_element (seen scope.now) t.now (expression_of e.now))) result
        (first_of_taking (tree_at site.now) (element_of t.now place.now)) }
{
    Stop::at(!may_have_elements(t), Rule::Type)?;
    spots::number(place)?;
    if !is_number(place) {
        return Ok(StaticType::Unknown);
    }
    let found = type_of_element(site.alloc, scope.names(), t, e)?;
    Ok(found)
}

/// Whether an element can be taken of a type: of a region or a partition, as far as is known.
fn may_have_elements(t: &StaticType) -> bool
    ensures { result ≡ not (is_ill_typed_step (element_of t.now unknown_type)) }
{
    is_unknown(t) || is_region(t) || is_partition(t)
}
