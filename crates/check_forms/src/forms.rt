//! Statements without blocks, but for variables and assignments.

ghost use Rattle.std.specs.List.{list_any};
ghost use Rattle.std.specs.Option.{option_map};
ghost use Rattle.std.specs.Prelude.{◌≡◌, [], IfOk, Some, flat_map, map, not};
ghost use Rattle.regent_tree.specs.Plain.{expression_of, expressions_in};
ghost use Rattle.regent_tree.specs.PlainProgram.{tree_of};
ghost use Rattle.regent_tree.specs.Lookup.{type_named};
ghost use Rattle.regent_tree.specs.Syntax.{return_form};
ghost use Rattle.regent_tree.specs.declared.rights.Access.TheVariants.{Write};
ghost use Rattle.check_rules.specs.types.Declarations.{known_field};
ghost use Rattle.check_rules.specs.first.FirstInExpressions.{first_of_standing};
ghost use Rattle.check_rules.specs.first.FirstInStatements.{first_of_form};
ghost use Rattle.check_rules.specs.rules.Formats.{misprints};
ghost use Rattle.check_rules.specs.rules.Names.{is_unknown_region_field, misses_alias};
ghost use Rattle.check_rules.specs.rules.Privileges.{lacks, wanted_of_region};
ghost use Rattle.check_rules.specs.first.Rules.{first_in};
ghost use Rattle.check_rules.specs.types.Sorts.{is_integer, may_be};
ghost use Rattle.check_rules.specs.rules.Standing.{stands, typed_spot, value_spot};
ghost use Rattle.check_rules.specs.rules.Statements.{known_result};
ghost use Rattle.check_expressions.specs.Seen.{seen};
ghost use Rattle.check_expressions.specs.Sites.{HoldsDeclared, task_at, tree_at};
ghost use Rattle.static_types.specs.Telling.{Anything, Tells};
ghost use Rattle.check_forms.specs.Heads.{first_of_call_alone, first_of_fill, first_of_filled, first_of_print};

use check_expressions::{
    Declared, Scope, Site, arguments, call, expression, misuses_region_field, spots,
};
use check_rules::Rule;
use check_variables::{is_unknown_region_field, known_field};
use program_tables::Names;
use regent_tree::{Access, Expr, Name, StaticType, TypeTerm};
use static_types::{Stop, is_integer, is_unknown, number_type, prints};
use std::alloc::AllocError;
use written_types::names_region;

// ---- `fill`

fn has_unbound_name_in(declared: &Declared, names: &Names, region: &Name, fields: &[Name]) -> bool
    ensures { result
        ≡ list_any (is_unknown_region_field (tree_of declared.now) names.now region.now) fields.now }
{
    fields.iter().any(|field| is_unknown_region_field(declared, names, region, field))
}

/// Whether a value of a type fits each of these fields of a region.
fn fields_take(
    site: &Site,
    scope: &Scope,
    region: &StaticType,
    fields: &[Name],
    t: &StaticType,
) -> Result<(), Stop>
    ensures { Tells Anything result (first_in (first_of_standing scope.now.facts)
        (map (λ f. stands t.now (typed_spot (known_field (tree_at site.now) region.now f))) fields.now)) }
{
    for field in fields {
        let wanted = known_field(site, region, field)?;
        spots::typed(scope.facts(), t, &wanted)?;
    }
    Ok(())
}

/// Whether the task may not write each of these fields of a region.
fn lacks_writes(
    site: &Site,
    scope: &Scope,
    region: &StaticType,
    fields: &[Name],
) -> Result<bool, AllocError>
    requires { HoldsDeclared site.now }
    ensures { IfOk result (λ b. b ≡ lacks (tree_at site.now) (task_at site.now) (seen scope.now)
        (flat_map (wanted_of_region (tree_at site.now) Write region.now) fields.now)) }
{
    for field in fields {
        if misuses_region_field(site, scope, Access::Write, region, field)? {
            return Ok(true);
        }
    }
    Ok(false)
}

/// The type of a region that has fields to be filled.
fn filled<'a>(
    declared: &Declared,
    names: &'a Names,
    region: &Name,
    fields: &[Name],
) -> Result<&'a StaticType, Stop>
    ensures { Tells (λ t. t.now ≡ type_named names.now region.now) result
        (first_of_filled (tree_of declared.now) names.now region.now fields.now) }
{
    let Some(bound) = names.bound_to(region) else {
        return Err(Stop::Breach(Rule::Name));
    };
    let has_unbound_name = has_unbound_name_in(declared, names, region, fields);
    Stop::at(!names_region(names, region) || has_unbound_name, Rule::Name)?;
    Ok(&bound.static_type)
}

/// `fill(r.fields, e)`.
pub fn fill(
    site: &Site,
    scope: &Scope,
    region: &Name,
    fields: &[Name],
    value: &Expr,
) -> Result<(), Stop>
    requires { HoldsDeclared site.now }
    ensures { Tells Anything result (first_of_fill (tree_at site.now) (task_at site.now) (seen scope.now)
        region.now fields.now (expression_of value.now)) }
{
    let t = expression(site, scope, value)?;
    let target = filled(site.declared, scope.names(), region, fields)?;
    fields_take(site, scope, target, fields, &t)?;
    let lacks = lacks_writes(site, scope, target, fields)?;
    Stop::at(lacks, Rule::Write)
}

// ---- `printf`

fn misses_alias(declared: &Declared, alias: &Option<Name>) -> bool
    ensures { result ≡ misses_alias (tree_of declared.now) alias.now }
{
    match alias {
        None => false,
        Some(name) => !declared.tables().has_alias(name),
    }
}

/// Whether each of these types is one of values.
fn are_values(types: &[StaticType]) -> Result<(), Stop>
    ensures { Tells Anything result
        (first_in (first_of_standing []) (map (λ t. stands t value_spot) types.now)) }
{
    for t in types {
        spots::value(t)?;
    }
    Ok(())
}

fn any_no_integer(types: &[StaticType]) -> bool
    ensures { result ≡ list_any (λ t. not (may_be is_integer t)) types.now }
{
    types.iter().any(|t| !(is_unknown(t) || is_integer(t)))
}

fn misprints(format: &[u8], types: &[StaticType]) -> bool
    ensures { result ≡ misprints format.now types.now }
{
    !prints(format, types.len()) || any_no_integer(types)
}

/// A `printf`, by an alias or by `regentlib.c`.
pub fn print(
    site: &Site,
    scope: &Scope,
    alias: &Option<Name>,
    format: &[u8],
    args: &[Expr],
) -> Result<(), Stop>
    requires { HoldsDeclared site.now }
    ensures { Tells Anything result (first_of_print (tree_at site.now) (task_at site.now) (seen scope.now)
        alias.now format.now (expressions_in args.now)) }
{
    let types = arguments(site, scope, args)?;
    Stop::at(misses_alias(site.declared, alias), Rule::Name)?;
    are_values(&types)?;
    Stop::at(misprints(format, &types), Rule::Format)
}

// ---- calls

/// A call that stands alone; its result is dropped.
pub fn call_alone(site: &Site, scope: &Scope, task: &Name, args: &[Expr]) -> Result<(), Stop>
    requires { HoldsDeclared site.now }
    ensures { Tells Anything result (first_of_call_alone (tree_at site.now) (task_at site.now) (seen scope.now)
        task.now (expressions_in args.now)) }
{
    let types = arguments(site, scope, args)?;
    call(site, scope, task, &types)?;
    Ok(())
}

// ---- `return`

/// The type of the task's results, as far as is known.
fn known_result(site: &Site) -> StaticType
    ensures { result ≡ known_result (tree_at site.now) (task_at site.now).result }
{
    match &site.task.result {
        Some(TypeTerm::Number(number)) => number_type(*number),
        Some(TypeTerm::Truth) => StaticType::Truth,
        _ => StaticType::Unknown,
    }
}

/// A value that is returned.
fn return_value(site: &Site, scope: &Scope, value: &Expr) -> Result<(), Stop>
    requires { HoldsDeclared site.now }
    ensures { Tells Anything result (first_of_form (tree_at site.now) (task_at site.now) (seen scope.now)
        (return_form (Some (expression_of value.now)))) }
{
    let t = expression(site, scope, value)?;
    let wanted = known_result(site);
    spots::typed(scope.facts(), &t, &wanted)?;
    Stop::at(site.task.result.is_none(), Rule::Return)
}

/// `return`, with a value or without.
pub fn return_any(site: &Site, scope: &Scope, value: &Option<Expr>) -> Result<(), Stop>
    requires { HoldsDeclared site.now }
    ensures { Tells Anything result (first_of_form (tree_at site.now) (task_at site.now) (seen scope.now)
        (return_form (option_map expression_of value.now))) }
{
    match value {
        Some(value) => return_value(site, scope, value),
        None => Stop::at(site.task.result.is_some(), Rule::Return),
    }
}
