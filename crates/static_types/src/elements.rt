//! The types of elements: a region's are pointers, and a partition's are its children.

ghost use Rattle.std.specs.Prelude.{◌≡◌, IfOk, Some, [], ◌∷◌};
ghost use Rattle.regent_tree.specs.Plain.{expression_of};
ghost use Rattle.regent_tree.specs.Scopes.{bound_as, bound_to};
ghost use Rattle.regent_tree.specs.Typing.{child_type, colour_named, colour_of, type_of_element};
ghost use Rattle.regent_tree.specs.declared.typing.StaticType.TheVariants.{Pointer as pointer_type};
ghost use Rattle.static_types.specs.Scopes.{scope_naming};

use crate::sorts::copy_reaches;
use plain_values::Sequence;
use program_tables::Names;
use regent_tree::{Colour, Expr, Kind, Name, Reach, StaticType, Term};
use std::alloc::{AllocError, Global};

/// The colour that an expression is as it is written.
fn colour_of(names: &Names, e: &Expr) -> Colour
    ensures { result ≡ colour_of (scope_naming names.now) (expression_of e.now) }
{
    match e {
        Expr::Number { value, .. } => Colour::Constant(*value),
        Expr::Access { name, steps } => {
            if steps.is_empty() {
                colour_named(names, name)
            } else {
                Colour::Unknown
            }
        }
        _ => Colour::Unknown,
    }
}

/// A loop variable's name is a colour of its own.
fn colour_named(names: &Names, name: &Name) -> Colour
    ensures { result ≡ colour_named (bound_to names.now name.now) }
{
    match names.bound_to(name) {
        Some(bound) if bound.by_loop => Colour::Loop(bound.number),
        _ => Colour::Unknown,
    }
}

/// The type of a child: a region as its partition's parent is.
fn child_type(alloc: Global, parent: &StaticType, term: Term) -> Result<StaticType, AllocError>
    ensures { IfOk result (λ t. t ≡ child_type parent.now term) }
{
    match parent {
        StaticType::Region {
            kind,
            space,
            args,
            ..
        } => Ok(StaticType::Region {
            kind: *kind,
            space: *space,
            args: copy_reaches(alloc, args)?,
            term,
        }),
        _ => Ok(StaticType::Unknown),
    }
}

/// The child of a partition, by its parent's binding.
fn child_of(alloc: Global, names: &Names, parent: u32, term: Term) -> Result<StaticType, AllocError>
    ensures { IfOk result (λ t. t ≡ child_type (bound_as names.now parent).static_type term) }
{
    match names.bound_as(parent) {
        Some(bound) => child_type(alloc, &bound.static_type, term),
        None => Ok(StaticType::Unknown),
    }
}

/// The type of a pointer into a region, whose own list holds the region alone.
pub fn pointer_into(
    alloc: Global,
    kind: Kind,
    space: u32,
    args: &Sequence<Reach>,
    term: Term,
) -> Result<StaticType, AllocError>
    ensures { IfOk result (λ t. t ≡ pointer_type kind space args.now (Some term ∷ [])) }
{
    let mut regions = Sequence::new(alloc);
    regions.push(Some(term))?;
    Ok(StaticType::Pointer {
        kind,
        space,
        args: copy_reaches(alloc, args)?,
        regions,
    })
}

/// The type of `x[e]` by the type of x.
pub fn type_of_element(
    alloc: Global,
    names: &Names,
    t: &StaticType,
    e: &Expr,
) -> Result<StaticType, AllocError>
    ensures { IfOk result (λ u. u ≡ type_of_element (scope_naming names.now) t.now (expression_of e.now)) }
{
    match t {
        StaticType::Region {
            kind,
            space,
            args,
            term,
        } => pointer_into(alloc, *kind, *space, args, *term),
        StaticType::Partition { parent, own, .. } => {
            let colour = colour_of(names, e);
            let term = Term::Child {
                partition: *own,
                colour,
            };
            child_of(alloc, names, *parent, term)
        }
        _ => Ok(StaticType::Unknown),
    }
}
