//! Initializers of variables.

ghost use Rattle.std.specs.Option.{option_or};
ghost use Rattle.std.specs.Prelude.{◌≡◌, [], IfOk, option_to_list};
ghost use Rattle.regent_tree.specs.Plain.{expression_of, initializer_of};
ghost use Rattle.regent_tree.specs.Syntax.{plain_initializer, region_initializer};
ghost use Rattle.regent_tree.specs.Typing.{known_of_child, owned};
ghost use Rattle.regent_tree.specs.declared.types.Kind.TheVariants.{Int1d};
ghost use Rattle.regent_tree.specs.declared.types.TypeTerm.TheVariants as typed;
ghost use Rattle.regent_tree.specs.declared.typing.StaticType.TheVariants.{Unknown as unknown_type};
ghost use Rattle.check_rules.specs.types.Declarations.{names_unknown};
ghost use Rattle.check_rules.specs.first.FirstInExpressions.{first_in_expression, first_in_type, first_of_standing};
ghost use Rattle.check_rules.specs.types.KnownTypes.{known_type};
ghost use Rattle.check_rules.specs.rules.Standing.{space_spot, stands};
ghost use Rattle.static_types.specs.Telling.{Tells};
ghost use Rattle.check_expressions.specs.Seen.{seen};
ghost use Rattle.check_expressions.specs.Sites.{HoldsDeclared, task_at, tree_at};
ghost use Rattle.check_variables.specs.Beginning.{IsBegun, IsOfType, IsOver, begun_by, first_in_initializer};

use crate::beginnings::difference;
use crate::partition_initializers::{both, by_field, either, equal, image, minus, preimage};
use check_expressions::{Scope, Site, expression, spots};
use plain_values::Sequence;
use program_tables::copy_name;
use regent_tree::{Expr, Init, Kind, Known, Name, Ref, SpaceUse, StaticType, Term, TypeTerm};
use static_types::{Stop, all_looked_up};
use std::alloc::{AllocError, Global};
use written_types::{check_type, names_unknown};

/// An initializer: the type that a variable has by it, and what it tells of regions.
#[derive(Drop)]
pub struct Beginning {
    pub static_type: StaticType,
    pub known: Option<Known>,
}

/// The type of a variable that begins with an expression of a type.
fn owned(own: u32, t: StaticType) -> StaticType
    ensures { result ≡ owned own t }
{
    match t {
        StaticType::Region {
            kind,
            space,
            args,
            term: _,
        } => StaticType::Region {
            kind,
            space,
            args,
            term: Term::Name(own),
        },
        StaticType::Partition {
            disjoint,
            parent,
            ..
        } => StaticType::Partition {
            disjoint,
            parent,
            own,
        },
        other => other,
    }
}

/// What is known of a variable that begins with a child of a partition: it lies within the child.
fn known_of_child(own: u32, t: &StaticType) -> Option<Known>
    ensures { option_to_list result ≡ known_of_child own t.now }
{
    match t {
        StaticType::Region { term, .. } if matches!(term, Term::Child { .. }) => {
            Some(Known::Within(Term::Name(own), *term))
        }
        _ => None,
    }
}

/// A copy of a name in a list of arguments.
fn copy_ref(alloc: Global, region: &Ref) -> Result<Ref, AllocError>
    ensures { IfOk result (λ copy. copy ≡ region.now) }
{
    match region {
        Ref::Named(name) => Ok(Ref::Named(copy_name(alloc, name)?)),
        Ref::Wild => Ok(Ref::Wild),
    }
}

fn copy_refs(alloc: Global, regions: &[Ref]) -> Result<Sequence<Ref>, AllocError>
    ensures { IfOk result (λ copies. copies ≡ regions.now) }
{
    let mut copies = Sequence::new(alloc);
    for region in regions {
        let copy = copy_ref(alloc, region)?;
        copies.push(copy)?;
    }
    Ok(copies)
}

/// The type term that a new region has in it.
fn region_term(alloc: Global, fields: &SpaceUse) -> Result<TypeTerm, AllocError>
    ensures { IfOk result (λ term. term ≡ typed.Region Int1d fields.now) }
{
    Ok(TypeTerm::Region {
        kind: Kind::Int1d,
        space: SpaceUse {
            name: copy_name(alloc, &fields.name)?,
            args: copy_refs(alloc, fields.args.as_slice())?,
        },
    })
}

/// The first rule that the type of a new region breaches, or whether it names what is unknown.
fn check_region(site: &Site, scope: &Scope, fields: &SpaceUse) -> Result<bool, Stop>
    ensures { Tells (λ lost. lost ≡ names_unknown (seen scope.now).names (typed.Region Int1d fields.now)) result
        (first_in_type (tree_at site.now) (seen scope.now).names (typed.Region Int1d fields.now)) }
{
    let term = region_term(site.alloc, fields)?;
    check_type(site.alloc, site.declared.tables(), scope.names(), &term)?;
    Ok(names_unknown(scope.names(), &term))
}

/// A variable of which nothing is known.
fn unknown() -> Beginning
    ensures typed { result.static_type ≡ unknown_type }
    ensures known { option_to_list result.known ≡ [] }
{
    Beginning {
        static_type: StaticType::Unknown,
        known: None,
    }
}

/// A new region, over an index space of a type.
fn region_over(
    site: &Site,
    scope: &Scope,
    t: &StaticType,
    fields: &SpaceUse,
) -> Result<Beginning, Stop>
    ensures { Tells (IsOver (tree_at site.now) (seen scope.now) t.now fields.now) result
        (option_or (first_in_type (tree_at site.now) (seen scope.now).names (typed.Region Int1d fields.now))
        (first_of_standing [] (stands t.now space_spot))) }
{
    let lost = check_region(site, scope, fields)?;
    spots::space(t)?;
    if lost {
        return Ok(unknown());
    }
    let StaticType::Ispace(kind) = t else {
        return Ok(unknown());
    };
    Ok(Beginning {
        static_type: StaticType::Region {
            kind: *kind,
            space: site.declared.tables().place_of_space(&fields.name),
            args: all_looked_up(site.alloc, scope.names(), fields.args.as_slice())?,
            term: Term::Name(scope.next()),
        },
        known: Some(Known::Made(scope.next())),
    })
}

/// A new region.
fn region(site: &Site, scope: &Scope, space: &Expr, fields: &SpaceUse) -> Result<Beginning, Stop>
    requires { HoldsDeclared site.now }
    ensures { Tells (IsBegun (tree_at site.now) (seen scope.now) (region_initializer (expression_of space.now) fields.now)) result
        (first_in_initializer (tree_at site.now) (task_at site.now) (seen scope.now) (region_initializer (expression_of space.now) fields.now)) }
{
    let t = expression(site, scope, space)?;
    region_over(site, scope, &t, fields)
}

/// An expression that isn't the difference of two partitions.
fn expressed(site: &Site, scope: &Scope, e: &Expr) -> Result<Beginning, Stop>
    requires { HoldsDeclared site.now }
    ensures { Tells (IsOfType (seen scope.now) (known_type (tree_at site.now) (seen scope.now) (expression_of e.now))) result
        (first_in_expression (tree_at site.now) (task_at site.now) (seen scope.now) (expression_of e.now)) }
{
    let t = expression(site, scope, e)?;
    let own = scope.next();
    let known = known_of_child(own, &t);
    Ok(Beginning {
        static_type: owned(own, t),
        known,
    })
}

/// An expression, or the difference of two partitions.
fn plain(site: &Site, scope: &Scope, e: &Expr) -> Result<Beginning, Stop>
    requires { HoldsDeclared site.now }
    ensures { Tells (IsBegun (tree_at site.now) (seen scope.now) (plain_initializer (expression_of e.now))) result
        (first_in_initializer (tree_at site.now) (task_at site.now) (seen scope.now) (plain_initializer (expression_of e.now))) }
{
    match difference(scope.names(), e) {
        Some((p, q)) => Ok(partition(minus(scope, p, q)?)),
        None => expressed(site, scope, e),
    }
}

/// A partition tells no more than its type.
fn partition(static_type: StaticType) -> Beginning
    ensures typed { result.static_type ≡ static_type }
    ensures known { option_to_list result.known ≡ [] }
{
    Beginning {
        static_type,
        known: None,
    }
}

/// A variable that begins with a partition operation.
fn begun_by_partition(t: Result<StaticType, Stop>) -> Result<Beginning, Stop>
    ensures { result ≡ begun_by t }
{
    match t {
        Ok(static_type) => Ok(Beginning {
            static_type,
            known: None,
        }),
        Err(stop) => Err(stop),
    }
}

/// The first rule that an initializer breaches, or what a variable is by it.
pub fn initial_value(site: &Site, scope: &Scope, init: &Init) -> Result<Beginning, Stop>
    requires { HoldsDeclared site.now }
    ensures { Tells (IsBegun (tree_at site.now) (seen scope.now) (initializer_of init.now)) result
        (first_in_initializer (tree_at site.now) (task_at site.now) (seen scope.now) (initializer_of init.now)) }
{
    match init {
        Init::Region { space, fields } => region(site, scope, space, fields),
        Init::Equal { region, colours } => {
            begun_by_partition(equal(site, scope, region, colours))
        }
        Init::ByField {
            region,
            field,
            colours,
        } => begun_by_partition(by_field(site, scope, region, field, colours)),
        Init::Image {
            parent,
            partition,
            region,
            field,
        } => begun_by_partition(image(site, scope, parent, partition, region, field)),
        Init::Preimage {
            parent,
            partition,
            region,
            field,
        } => begun_by_partition(preimage(site, scope, parent, partition, region, field)),
        Init::Both { p, q } => begun_by_partition(both(site, scope, p, q)),
        Init::Either { p, q } => begun_by_partition(either(site, scope, p, q)),
        Init::Plain(e) => plain(site, scope, e),
    }
}
