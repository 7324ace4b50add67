//! The types of new variables, and what their initializers tell of regions.

ghost use Rattle.std.specs.Option.{option_map};
ghost use Rattle.std.specs.Prelude.{◌≡◌, IfOk, Some, option_to_list};
ghost use Rattle.regent_tree.specs.Plain.{expression_of, initializer_of};
ghost use Rattle.regent_tree.specs.Scopes.{bound_to};
ghost use Rattle.regent_tree.specs.Syntax.{region_initializer};
ghost use Rattle.regent_tree.specs.Typing.{initializer_type, is_disjoint, kind_of_ispace, known_of_child, known_of_initializer, owned, parent_of, var_type};
ghost use Rattle.regent_tree.specs.declared.typing.StaticType.TheVariants.{Partition as partition_type};
ghost use Rattle.compile_types.specs.Here.{where_of};

use compile_forms::parent_of;
use compile_types::{Here, type_of, type_of_name};
use regent_tree::{Expr, Init, Kind, Known, Name, SpaceUse, StaticType, Term, TypeTerm};
use static_types::{all_looked_up, number_bound, type_said};
use std::alloc::AllocError;

fn kind_of_ispace(t: &StaticType) -> Kind
    ensures { result ≡ kind_of_ispace t.now }
{
    match t {
        StaticType::Ispace(kind) => *kind,
        _ => Kind::Int1d,
    }
}

fn is_disjoint(t: &StaticType) -> bool
    ensures { result ≡ is_disjoint t.now }
{
    matches!(t, StaticType::Partition { disjoint: true, .. })
}

/// Whether the partition of a name is disjoint.
fn is_disjoint_named(here: &Here, name: &Name) -> bool
    ensures { result ≡ is_disjoint (bound_to (where_of here.now).scope.names name.now).static_type }
{
    match here.names.bound_to(name) {
        Some(bound) => is_disjoint(&bound.static_type),
        None => false,
    }
}

/// The parent of the partition of a name.
fn parent_named(here: &Here, name: &Name) -> u32
    ensures { result ≡ parent_of (bound_to (where_of here.now).scope.names name.now).static_type }
{
    match here.names.bound_to(name) {
        Some(bound) => parent_of(&bound.static_type),
        None => 0,
    }
}

/// The type of a variable that is as an expression of a type.
fn owned(own: u32, t: StaticType) -> StaticType
    ensures { result ≡ owned own t }
{
    match t {
        StaticType::Region {
            kind,
            space,
            args,
            ..
        } => StaticType::Region {
            kind,
            space,
            args,
            term: Term::Name(own),
        },
        StaticType::Partition {
            disjoint,
            parent,
            ..
        } => StaticType::Partition {
            disjoint,
            parent,
            own,
        },
        other => other,
    }
}

/// The type of a new region over an index space.
fn region_type(here: &Here, space: &Expr, fields: &SpaceUse) -> Result<StaticType, AllocError>
    ensures { IfOk result (λ t. t ≡ initializer_type (where_of here.now).tree (where_of here.now).scope
        (where_of here.now).scope.next (region_initializer (expression_of space.now) fields.now)) }
{
    let over = type_of(here, space)?;
    let args = all_looked_up(here.alloc(), here.names, fields.args.as_slice())?;
    Ok(StaticType::Region {
        kind: kind_of_ispace(&over),
        space: here.tables().place_of_space(&fields.name),
        args,
        term: Term::Name(here.next),
    })
}

/// The type of a new partition.
fn partition_type(here: &Here, disjoint: bool, parent: u32) -> StaticType
    ensures { result ≡ partition_type disjoint parent (where_of here.now).scope.next }
{
    StaticType::Partition {
        disjoint,
        parent,
        own: here.next,
    }
}

/// The type that an initializer gives a variable.
fn initializer_type(here: &Here, init: &Init) -> Result<StaticType, AllocError>
    ensures { IfOk result (λ t. t ≡ initializer_type (where_of here.now).tree (where_of here.now).scope
        (where_of here.now).scope.next (initializer_of init.now)) }
{
    match init {
        Init::Region { space, fields } => region_type(here, space, fields),
        Init::Equal { region, .. } | Init::ByField { region, .. } => {
            Ok(partition_type(here, true, number_bound(here.names, region)))
        }
        Init::Image { parent, .. } => {
            Ok(partition_type(here, false, number_bound(here.names, parent)))
        }
        Init::Preimage {
            parent,
            partition,
            ..
        } => {
            let disjoint = is_disjoint_named(here, partition);
            Ok(partition_type(here, disjoint, number_bound(here.names, parent)))
        }
        Init::Both { p, q } => {
            let disjoint = is_disjoint_named(here, p) || is_disjoint_named(here, q);
            Ok(partition_type(here, disjoint, parent_named(here, p)))
        }
        Init::Either { p, .. } => Ok(partition_type(here, false, parent_named(here, p))),
        Init::Plain(e) => Ok(owned(here.next, type_of(here, e)?)),
    }
}

/// The type of a new variable: as it is declared, or else as its initializer's.
pub fn var_type(
    here: &Here,
    term: &Option<TypeTerm>,
    init: &Option<Init>,
) -> Result<StaticType, AllocError>
    ensures { IfOk result (λ t. t ≡ var_type (where_of here.now).tree (where_of here.now).scope term.now
        (option_map initializer_of init.now)) }
{
    match (term, init) {
        (Some(term), _) => type_said(here.alloc(), here.tables(), here.names, here.next, term),
        (None, Some(init)) => initializer_type(here, init),
        (None, None) => Ok(StaticType::Unknown),
    }
}

/// What is known of a variable that begins as a child of a partition: it lies within the child.
fn known_of_child(own: u32, t: &StaticType) -> Option<Known>
    ensures { option_to_list result ≡ known_of_child own t.now }
{
    let StaticType::Region { term, .. } = t else {
        return None;
    };
    match term {
        Term::Child { .. } => Some(Known::Within(Term::Name(own), *term)),
        Term::Name(_) => None,
    }
}

/// What an initializer tells of regions.
pub fn known_of_initializer(here: &Here, init: &Option<Init>) -> Result<Option<Known>, AllocError>
    ensures { IfOk result (λ known. option_to_list known ≡ known_of_initializer (where_of here.now).tree
        (where_of here.now).scope (where_of here.now).scope.next (option_map initializer_of init.now)) }
{
    match init {
        Some(Init::Region { .. }) => Ok(Some(Known::Made(here.next))),
        Some(Init::Plain(e)) => Ok(known_of_child(here.next, &type_of(here, e)?)),
        _ => Ok(None),
    }
}
