//! `var` statements.

ghost use Rattle.std.specs.Option.{option_map};
ghost use Rattle.std.specs.Prelude.{◌≡◌, ◌&&◌, ◌++◌, [], false, None, OnOk, Some, option_to_list};
ghost use Rattle.regent_tree.specs.Plain.{initializer_of};
ghost use Rattle.regent_tree.specs.Scopes.{knowing, known_of_type, with_name};
ghost use Rattle.regent_tree.specs.Syntax.{var_form};
ghost use Rattle.check_rules.specs.types.Params.{type_unless};
ghost use Rattle.check_rules.specs.first.FirstInExpressions.{first_in_type};
ghost use Rattle.check_rules.specs.rules.Places.{has_wrong_initializer};
ghost use Rattle.check_rules.specs.first.Rules.{rule_if};
ghost use Rattle.check_rules.specs.types.Sorts.{is_collection, is_unknown_type};
ghost use Rattle.check_rules.specs.scopes.Variables.{bound_type, declared_type, known_of_known_initializer, known_scope_after};
ghost use Rattle.check_rules.specs.declared.rule.Rule.TheVariants as rule;
ghost use Rattle.check_expressions.specs.Seen.{seen};
ghost use Rattle.check_expressions.specs.Sites.{HoldsDeclared, task_at, tree_at};
ghost use Rattle.static_types.specs.Telling.{Anything, Tells};
ghost use Rattle.check_variables.specs.Variables.{first_of_begun, first_by_both, first_by_type, first_by_initializer, first_of_var};

use crate::beginnings::{begins_partition, begins_region};
use crate::initializers::{Beginning, initial_value};
use check_expressions::{Scope, Site, spots};
use check_rules::Rule;
use program_tables::{Names, copy_name};
use regent_tree::{Init, Known, Name, StaticType, TypeTerm};
use static_types::{Stop, is_collection, is_partition, is_region, is_unknown, type_said};
use std::alloc::AllocError;
use written_types::{check_type, names_unknown};

/// The type that is declared, where it names nothing unknown.
fn declared_type(site: &Site, scope: &Scope, term: &TypeTerm) -> Result<StaticType, Stop>
    ensures { Tells (λ t. t ≡ declared_type (tree_at site.now) (seen scope.now) term.now) result
        (first_in_type (tree_at site.now) (seen scope.now).names term.now) }
{
    let tables = site.declared.tables();
    let names = scope.names();
    check_type(site.alloc, tables, names, term)?;
    if names_unknown(names, term) {
        return Ok(StaticType::Unknown);
    }
    let said = type_said(site.alloc, tables, names, scope.next(), term)?;
    Ok(said)
}

/// Whether a variable of a type doesn't begin as it must.
fn has_wrong_initializer(names: &Names, wanted: &StaticType, t: &StaticType, init: &Init) -> bool
    ensures { result ≡ has_wrong_initializer names.now wanted.now t.now (initializer_of init.now) }
{
    if is_unknown(t) {
        return false;
    }
    is_region(wanted) && !(is_region(t) && begins_region(init))
        || is_partition(wanted) && !begins_partition(names, init)
}

/// A variable by its initializer alone.
fn by_initializer(site: &Site, scope: &Scope, init: &Init) -> Result<Beginning, Stop>
    requires { HoldsDeclared site.now }
    ensures { Tells (λ b. (b.static_type ≡ bound_type (tree_at site.now) (seen scope.now) None (Some (initializer_of init.now)))
        × (option_to_list b.known ≡ known_of_known_initializer (tree_at site.now) (seen scope.now) (Some (initializer_of init.now)))) result
        (first_by_initializer (tree_at site.now) (task_at site.now) (seen scope.now) (initializer_of init.now)) }
{
    let begun = initial_value(site, scope, init)?;
    let t = &begun.static_type;
    Stop::at(
        has_wrong_initializer(scope.names(), t, t, init),
        Rule::Place,
    )?;
    Ok(begun)
}

/// A variable by its declared type alone.
fn by_type(site: &Site, scope: &Scope, term: &TypeTerm) -> Result<Beginning, Stop>
    ensures { Tells (λ b. (b.static_type ≡ bound_type (tree_at site.now) (seen scope.now) (Some term.now) None)
        × (option_to_list b.known ≡ [])) result
        (first_by_type (tree_at site.now) (task_at site.now) (seen scope.now) term.now) }
{
    let static_type = declared_type(site, scope, term)?;
    Stop::at(is_collection(&static_type), Rule::Place)?;
    Ok(Beginning {
        static_type,
        known: None,
    })
}

/// The declared type, unless it is a collection's and the initializer is unknown: which collection it is
/// comes from that.
fn unless_begun_unknown(declared: StaticType, begun: &StaticType) -> StaticType
    ensures { result ≡ type_unless (is_collection declared && is_unknown_type begun.now) declared }
{
    if is_collection(&declared) && is_unknown(begun) {
        StaticType::Unknown
    } else {
        declared
    }
}

/// Whether what a variable of a type begins with fits, and whether it begins as it must.
fn check_begun(scope: &Scope, wanted: &StaticType, t: &StaticType, init: &Init) -> Result<(), Stop>
    ensures { Tells Anything result
        (first_of_begun (seen scope.now) wanted.now t.now (initializer_of init.now)) }
{
    spots::typed(scope.facts(), t, wanted)?;
    Stop::at(
        has_wrong_initializer(scope.names(), wanted, t, init),
        Rule::Place,
    )
}

/// A variable by its declared type and its initializer.
fn by_both(site: &Site, scope: &Scope, term: &TypeTerm, init: &Init) -> Result<Beginning, Stop>
    requires { HoldsDeclared site.now }
    ensures { Tells (λ b. (b.static_type ≡ bound_type (tree_at site.now) (seen scope.now) (Some term.now) (Some (initializer_of init.now)))
        × (option_to_list b.known ≡ known_of_known_initializer (tree_at site.now) (seen scope.now) (Some (initializer_of init.now)))) result
        (first_by_both (tree_at site.now) (task_at site.now) (seen scope.now) term.now (initializer_of init.now)) }
{
    let declared = declared_type(site, scope, term)?;
    let begun = initial_value(site, scope, init)?;
    check_begun(scope, &declared, &begun.static_type, init)?;
    Ok(Beginning {
        static_type: unless_begun_unknown(declared, &begun.static_type),
        known: begun.known,
    })
}

/// What the type of a partition tells.
fn known_of_type(t: &StaticType) -> Option<Known>
    ensures { option_to_list result ≡ known_of_type t.now }
{
    match t {
        StaticType::Partition {
            disjoint,
            parent,
            own,
        } => Some(Known::PartOf {
            partition: *own,
            parent: *parent,
            disjoint: *disjoint,
        }),
        _ => None,
    }
}

/// Whatever more is known.
pub fn know(scope: &mut Scope, known: Option<Known>) -> Result<(), AllocError>
    ensures { OnOk result (seen scope.new ≡ knowing (seen scope.old) (option_to_list known)) }
{
    match known {
        Some(known) => scope.know(known),
        None => Ok(()),
    }
}

/// Binds a variable of a type, of which something is known.
pub fn bind(
    scope: &mut Scope,
    name: Name,
    t: StaticType,
    known: Option<Known>,
) -> Result<(), AllocError>
    ensures { OnOk result (seen scope.new ≡ knowing (with_name (seen scope.old) name t false)
        (option_to_list known ++ known_of_type t)) }
{
    let of_type = known_of_type(&t);
    scope.bind(name, t, false)?;
    know(scope, known)?;
    know(scope, of_type)
}

/// A variable, by what is given of it.
fn begun_by(
    site: &Site,
    scope: &Scope,
    term: &Option<TypeTerm>,
    init: &Option<Init>,
) -> Result<Beginning, Stop>
    requires { HoldsDeclared site.now }
    ensures { Tells (λ b. (b.static_type ≡ bound_type (tree_at site.now) (seen scope.now) term.now (option_map initializer_of init.now))
        × (option_to_list b.known ≡ known_of_known_initializer (tree_at site.now) (seen scope.now) (option_map initializer_of init.now))) result
        (first_of_var (tree_at site.now) (task_at site.now) (seen scope.now) term.now (option_map initializer_of init.now)) }
{
    match (term, init) {
        (None, None) => Err(Stop::Breach(Rule::Type)),
        (None, Some(init)) => by_initializer(site, scope, init),
        (Some(term), None) => by_type(site, scope, term),
        (Some(term), Some(init)) => by_both(site, scope, term, init),
    }
}

/// A `var`, which binds its name.
pub fn variable(
    site: &Site,
    scope: &mut Scope,
    name: &Name,
    term: &Option<TypeTerm>,
    init: &Option<Init>,
) -> Result<(), Stop>
    requires { HoldsDeclared site.now }
    ensures { Tells (λ _. seen scope.new ≡ known_scope_after (tree_at site.now) (seen scope.old)
        (var_form name.now term.now (option_map initializer_of init.now))) result
        (first_of_var (tree_at site.now) (task_at site.now) (seen scope.old) term.now (option_map initializer_of init.now)) }
{
    let Beginning { static_type, known } = begun_by(site, scope, term, init)?;
    let name = copy_name(site.alloc, name)?;
    bind(scope, name, static_type, known)?;
    Ok(())
}
