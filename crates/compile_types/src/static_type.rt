//! Static types of what stands in an accepted program.

ghost use Rattle.std.specs.Prelude.{◌≡◌, IfOk};
ghost use Rattle.regent_tree.specs.Plain.{expression_of};
ghost use Rattle.regent_tree.specs.PlainProgram.{tree_of};
ghost use Rattle.regent_tree.specs.StaticTypes.{field_type, written_pointer};
ghost use Rattle.regent_tree.specs.Scopes.{bound_to, in_scope};
ghost use Rattle.regent_tree.specs.Typing.{operated, signed_type, type_of_element, type_of_field, width_of_type};
ghost use Rattle.regent_tree.specs.declared.expression.Operator.TheVariants.{Compute};
ghost use Rattle.compile_types.specs.Here.{where_of};

use crate::here::Here;
use regent_tree::{
    Arithmetic, Expr, Kind, Name, Operator, PointerTerm, Reach, Sign, StaticType, Width,
};
use static_types::{Arguments, arithmetic_type, copy_type, counting_as, place_in, type_said};
use std::alloc::AllocError;

/// The width of an integer type.
pub fn width_of_type(t: &StaticType) -> Width
    ensures { result ≡ width_of_type t.now }
{
    match t {
        StaticType::Integer(width) => *width,
        _ => Width::W64,
    }
}

/// The width at which a sum and the like are computed.
pub fn width_computed(operator: Arithmetic, left: &StaticType, right: &StaticType) -> Width
    ensures { result ≡ width_of_type (operated (Compute operator) left.now right.now) }
{
    match (left, right) {
        (StaticType::Integer(Width::W32), StaticType::Integer(width)) => *width,
        _ => Width::W64,
    }
}

/// The type of `x[e]` by the type of x.
#[tactic(auto, using(static_types::proofs::ElementTypes::element_by_names))]
pub fn type_of_element(here: &Here, t: &StaticType, e: &Expr) -> Result<StaticType, AllocError>
    ensures { IfOk result (λ u. u ≡ type_of_element (where_of here.now).scope t.now (expression_of e.now)) }
{
    static_types::type_of_element(here.alloc(), here.names, t, e)
}

/// The type of a field of a field space with these arguments.
pub fn field_type(
    here: &Here,
    space: u32,
    args: &[Reach],
    field: &Name,
) -> Result<StaticType, AllocError>
    ensures { IfOk result (λ t. t ≡ field_type (where_of here.now).tree space args.now field.now) }
{
    let Some(found) = here.tables().space_at(space) else {
        return Ok(StaticType::Truth);
    };
    let params = found.params.as_slice();
    let fields = found.fields.as_slice();
    match fields.get(place_in(fields, field)) {
        Some(param) => type_said(
            here.alloc(),
            here.tables(),
            &Arguments { params, args },
            0,
            &param.term,
        ),
        None => Ok(StaticType::Truth),
    }
}

/// The type of `x.f` by the type of x.
pub fn type_of_field(here: &Here, t: &StaticType, field: &Name) -> Result<StaticType, AllocError>
    ensures { IfOk result (λ u. u ≡ type_of_field (where_of here.now).tree t.now field.now) }
{
    match t {
        StaticType::Pointer { space, args, .. } => field_type(here, *space, args.as_slice(), field),
        StaticType::Partition { .. } => Ok(StaticType::Ispace(Kind::Int1d)),
        _ => Ok(StaticType::Unknown),
    }
}

/// The type of what a name is bound to.
pub fn type_of_name(here: &Here, name: &Name) -> Result<StaticType, AllocError>
    ensures { IfOk result (λ t. t ≡ (bound_to (where_of here.now).scope.names name.now).static_type) }
{
    match here.names.bound_to(name) {
        Some(bound) => copy_type(here.alloc(), &bound.static_type),
        None => Ok(StaticType::Unknown),
    }
}

/// The type that a pointer term says.
pub fn written_pointer(here: &Here, term: &PointerTerm) -> Result<StaticType, AllocError>
    ensures { IfOk result (λ t. t ≡ written_pointer (where_of here.now).tree (in_scope (where_of here.now).scope) term.now) }
{
    static_types::written_pointer(here.alloc(), here.tables(), here.names, term)
}

/// The type of an operator's result.
pub fn operated(operator: Operator, left: StaticType, right: StaticType) -> StaticType
    ensures { result ≡ operated operator left right }
{
    match operator {
        Operator::Compute(_) => arithmetic_type(counting_as(left), counting_as(right)),
        _ => StaticType::Truth,
    }
}

/// The type of what stands behind prefixes.
pub fn signed_type(signs: &[Sign], t: StaticType) -> StaticType
    ensures { result ≡ signed_type signs.now t }
{
    match signs.first() {
        None => t,
        Some(Sign::Not) => StaticType::Truth,
        Some(Sign::Minus) => counting_as(t),
    }
}
