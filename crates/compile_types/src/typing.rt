//! The types of expressions, from the text alone.

ghost use Rattle.std.specs.Prelude.{◌≡◌, IfOk};
ghost use Rattle.regent_tree.specs.Plain.{expression_of, expressions_in, links_in, steps_in};
ghost use Rattle.regent_tree.specs.PlainProgram.{tree_of};
ghost use Rattle.regent_tree.specs.Scopes.{bound_to};
ghost use Rattle.regent_tree.specs.Typing.{linked_type, operated, signed_type, stepped_type, type_of, types_of};
ghost use Rattle.compile_types.specs.Here.{where_of};

use crate::calls::result_of;
use crate::here::Here;
use crate::static_type::{
    operated, signed_type, type_of_element, type_of_field, type_of_name, written_pointer,
};
use regent_tree::{Expr, Link, Name, StaticType, Step};
use static_types::number_type;
use std::alloc::AllocError;

/// The type of an access, by the type of what it begins with.
pub fn stepped_type(here: &Here, head: StaticType, steps: &[Step]) -> Result<StaticType, AllocError>
    ensures { IfOk result (λ t. t ≡ stepped_type (where_of here.now).tree (where_of here.now).scope head (steps_in steps.now)) }
{
    let mut t = head;
    for step in steps {
        t = match step {
            Step::Field(name) => type_of_field(here, &t, name)?,
            Step::At(e) => type_of_element(here, &t, e)?,
        };
    }
    Ok(t)
}

/// The type of an access.
pub fn access_type(here: &Here, name: &Name, steps: &[Step]) -> Result<StaticType, AllocError>
    ensures { IfOk result (λ t. t ≡ stepped_type (where_of here.now).tree (where_of here.now).scope
        (bound_to (where_of here.now).scope.names name.now).static_type (steps_in steps.now)) }
{
    let head = type_of_name(here, name)?;
    stepped_type(here, head, steps)
}

/// The type of an expression.
#[cycle(typing)]
pub fn type_of(here: &Here, e: &Expr) -> Result<StaticType, AllocError>
    ensures { IfOk result (λ t. t ≡ type_of (where_of here.now).tree (where_of here.now).scope (expression_of e.now)) }
{
    match e {
        Expr::Number { width, .. } => Ok(StaticType::Integer(*width)),
        Expr::Truth(_) | Expr::IsNull(_) => Ok(StaticType::Truth),
        Expr::Chain { first, rest } => {
            let left = type_of(here, first)?;
            linked_type(here, left, rest.as_slice())
        }
        Expr::Prefix { signs, inner } => {
            let t = type_of(here, inner)?;
            Ok(signed_type(signs.as_slice(), t))
        }
        Expr::Call { task, .. } => result_of(here, task),
        Expr::Access { name, steps } => access_type(here, name, steps.as_slice()),
        Expr::Convert { to, .. } => Ok(number_type(*to)),
        Expr::Null(pointer) => written_pointer(here, pointer),
        Expr::Cast { pointer, .. } => written_pointer(here, pointer),
        Expr::Space { kind, .. } => Ok(StaticType::Ispace(*kind)),
    }
}

/// The type of a chain, from that of what stands on the left.
#[cycle(typing)]
fn linked_type(here: &Here, first: StaticType, rest: &[Link]) -> Result<StaticType, AllocError>
    ensures { IfOk result (λ t. t ≡ linked_type (where_of here.now).tree (where_of here.now).scope first (links_in rest.now)) }
{
    let mut left = first;
    for link in rest {
        let right = type_of(here, &link.operand)?;
        left = operated(link.operator, left, right);
    }
    Ok(left)
}

/// The types of arguments.
pub fn types_of(here: &Here, args: &[Expr]) -> Result<Vec<StaticType>, AllocError>
    ensures { IfOk result (λ types. types.items ≡ types_of (where_of here.now).tree (where_of here.now).scope (expressions_in args.now)) }
{
    let mut types = Vec::new(here.alloc());
    for arg in args {
        let t = type_of(here, arg)?;
        types.push(t)?;
    }
    Ok(types)
}
