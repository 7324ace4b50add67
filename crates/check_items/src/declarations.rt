//! What the items of a program declare.

ghost use Rattle.std.specs.Prelude.{◌≡◌, ◌∷◌, ◌++◌, [], IfOk, List, ℕ};
ghost use Rattle.std.specs.List.{list_any};
ghost use Rattle.std.specs.Option.{option_or};
ghost use Rattle.regent_tree.specs.PlainProgram.{item_of, item_tree_of, tree_of};
ghost use Rattle.regent_tree.specs.Scopes.{bound_params};
ghost use Rattle.check_rules.specs.rules.Clauses.{misdeclares};
ghost use Rattle.check_rules.specs.rules.Counts.{miscounts_in_type};
ghost use Rattle.check_rules.specs.types.Declarations.{is_no_field_type, is_no_result_type, params_bound};
ghost use Rattle.check_rules.specs.types.Params.{params_beside};
ghost use Rattle.check_rules.specs.first.FirstInItems.{first_declared, first_of_field, first_of_said, first_of_saying};
ghost use Rattle.check_rules.specs.first.FirstInStatements.{told_on};
ghost use Rattle.check_rules.specs.rules.Names.{unbound_name_in_type};
ghost use Rattle.check_rules.specs.rules.Partitions.{miscolours_in_type};
ghost use Rattle.check_rules.specs.rules.Pointers.{wrong_region_in_type};
ghost use Rattle.check_rules.specs.first.Rules.{first_in, first_of, rule_if};
ghost use Rattle.check_rules.specs.rules.Spaces.{misfits_in_type};
ghost use Rattle.check_rules.specs.scopes.Visits.{declarations_in};
ghost use Rattle.check_rules.specs.declared.rule.Rule.TheVariants as rule;
ghost use Rattle.static_types.specs.Telling.{Anything, Tells};
ghost use Rattle.check_items.specs.Declaring.{declared_with};
ghost use Rattle.check_items.specs.Halting.{TellsAt};

use crate::clauses::any_misdeclares;
use crate::halt::{Halt, halt_on};
use crate::repeats::check_names_within;
use check_rules::Rule;
use program_tables::{Names, Tables};
use regent_tree::{FieldSpace, Item, ItemKind, Param, Task, TypeTerm};
use static_types::{Stop, bind_written};
use std::alloc::{AllocError, Global};
use written_types::{
    miscolours_in_type, miscounts_in_type, misfits_in_type, unbound_name_in_type,
    wrong_region_in_type,
};

/// Whether a type that is declared says one.
fn check_saying_one(tables: &Tables, names: &Names, term: &TypeTerm) -> Result<(), Stop>
    ensures { Tells Anything result
        (first_of (rule_if (unbound_name_in_type (tree_of tables.now) names.now term.now) rule.Name
        ∷ rule_if (miscounts_in_type (tree_of tables.now) term.now) rule.Count
        ∷ [])) }
{
    Stop::at(unbound_name_in_type(tables, names, term), Rule::Name)?;
    Stop::at(miscounts_in_type(tables, term), Rule::Count)
}

/// Whether the types that are declared say ones.
fn check_saying(tables: &Tables, names: &Names, params: &[Param]) -> Result<(), Halt>
    ensures { TellsAt Anything result
        (first_in (first_of_saying (tree_of tables.now)) (declared_with names.now params.now)) }
{
    for param in params {
        if let Err(stop) = check_saying_one(tables, names, &param.term) {
            return Err(halt_on(param.line, stop));
        }
    }
    Ok(())
}

/// Whether a type that is declared is one that may be.
fn check_said_one(
    alloc: Global,
    tables: &Tables,
    names: &Names,
    term: &TypeTerm,
) -> Result<(), Stop>
    ensures { Tells Anything result
        (first_of (rule_if (wrong_region_in_type (tree_of tables.now) names.now term.now) rule.Pointer
        ∷ rule_if (misfits_in_type (tree_of tables.now) names.now term.now) rule.Spaces
        ∷ rule_if (miscolours_in_type names.now term.now) rule.Partition
        ∷ [])) }
{
    Stop::at(wrong_region_in_type(tables, names, term), Rule::Pointer)?;
    Stop::at(misfits_in_type(alloc, tables, names, term)?, Rule::Spaces)?;
    Stop::at(miscolours_in_type(names, term), Rule::Partition)
}

/// Whether the types that are declared are ones that may be.
fn check_said(alloc: Global, tables: &Tables, names: &Names, params: &[Param]) -> Result<(), Halt>
    ensures { TellsAt Anything result
        (first_in (first_of_said (tree_of tables.now)) (declared_with names.now params.now)) }
{
    for param in params {
        if let Err(stop) = check_said_one(alloc, tables, names, &param.term) {
            return Err(halt_on(param.line, stop));
        }
    }
    Ok(())
}

/// Whether each of these declarations says a type.
fn check_all_saying(
    tables: &Tables,
    names: &Names,
    params: &[Param],
    more: &[Param],
) -> Result<(), Halt>
    requires { names.now ≡ bound_params (tree_of tables.now) params.now 0 params.now }
    ensures { TellsAt Anything result (first_in (first_of_saying (tree_of tables.now))
        (declarations_in (tree_of tables.now) params.now (params.now ++ more.now))) }
{
    check_saying(tables, names, params)?;
    check_saying(tables, names, more)
}

/// The names of parameters, where each of these declarations says a type.
#[tactic(auto, using(check_rules::proofs::Written::beside_written))]
fn bind_saying(
    alloc: Global,
    tables: &Tables,
    params: &[Param],
    more: &[Param],
) -> Result<Names, Halt>
    ensures { TellsAt
        (λ names. (names ≡ bound_params (tree_of tables.now) params.now 0 params.now)
        × (names ≡ params_beside (tree_of tables.now) params.now))
        result (first_in (first_of_saying (tree_of tables.now))
        (declarations_in (tree_of tables.now) params.now (params.now ++ more.now))) }
{
    let names = bind_written(alloc, tables, params)?;
    check_all_saying(tables, &names, params, more)?;
    Ok(names)
}

/// Whether the types of these declarations are ones that may be.
#[tactic(auto, using(crate::proofs::Declaring::said_split))]
fn check_all_said(
    alloc: Global,
    tables: &Tables,
    names: &Names,
    params: &[Param],
    more: &[Param],
) -> Result<(), Halt>
    requires { names.now ≡ params_beside (tree_of tables.now) params.now }
    ensures { TellsAt Anything result (first_in (first_of_said (tree_of tables.now))
        (declarations_in (tree_of tables.now) params.now (params.now ++ more.now))) }
{
    check_said(alloc, tables, names, params)?;
    check_said(alloc, tables, names, more)
}

fn is_no_field_type(term: &TypeTerm) -> bool
    ensures { result ≡ is_no_field_type term.now }
{
    match term {
        TypeTerm::Ispace(_) | TypeTerm::Region { .. } | TypeTerm::Partition { .. } => true,
        TypeTerm::Number(_) | TypeTerm::Truth | TypeTerm::Pointer(_) => false,
    }
}

/// Whether fields are of types that a field may have.
fn check_fields(fields: &[Param]) -> Result<(), Halt>
    ensures { TellsAt Anything result (first_in first_of_field fields.now) }
{
    for field in fields {
        if is_no_field_type(&field.term) {
            return Err(Halt::Breach {
                rule: Rule::Type,
                line: field.line,
            });
        }
    }
    Ok(())
}

/// What a field space declares, but for names that are given twice.
fn check_space(alloc: Global, tables: &Tables, space: &FieldSpace) -> Result<(), Halt>
    ensures { TellsAt Anything result (first_of (
        first_in (first_of_saying (tree_of tables.now))
        (declarations_in (tree_of tables.now) space.now.params (space.now.params ++ space.now.fields))
        ∷ first_in (first_of_said (tree_of tables.now))
        (declarations_in (tree_of tables.now) space.now.params (space.now.params ++ space.now.fields))
        ∷ first_in first_of_field space.now.fields
        ∷ [])) }
{
    let params = space.params.as_slice();
    let fields = space.fields.as_slice();
    let names = bind_saying(alloc, tables, params, fields)?;
    check_all_said(alloc, tables, &names, params, fields)?;
    check_fields(fields)
}

fn is_no_result_type(given: &Option<TypeTerm>) -> bool
    ensures { result ≡ is_no_result_type given.now }
{
    match given {
        None | Some(TypeTerm::Number(_)) | Some(TypeTerm::Truth) => false,
        Some(_) => true,
    }
}

/// The names of a task's parameters, whose types have no breach.
#[tactic(auto, using(crate::proofs::Declaring::params_written, crate::proofs::Declaring::params_alone))]
fn bind_params(alloc: Global, tables: &Tables, params: &[Param]) -> Result<Names, Halt>
    ensures { TellsAt (λ names. names ≡ params_bound (tree_of tables.now) params.now) result
        (option_or (first_in (first_of_saying (tree_of tables.now)) (declarations_in (tree_of tables.now) params.now params.now))
        (first_in (first_of_said (tree_of tables.now)) (declarations_in (tree_of tables.now) params.now params.now))) }
{
    let names = bind_saying(alloc, tables, params, &[])?;
    check_all_said(alloc, tables, &names, params, &[])?;
    Ok(names)
}

/// What a task that begins on a line declares by its result and clauses.
fn check_promises(tables: &Tables, names: &Names, line: u32, task: &Task) -> Result<(), Halt>
    ensures { TellsAt Anything result (first_of (
        told_on line (rule_if (is_no_result_type task.now.result) rule.Return)
        ∷ told_on line (rule_if (list_any (misdeclares (tree_of tables.now) names.now) task.now.clauses) rule.Declared)
        ∷ [])) }
{
    if is_no_result_type(&task.result) {
        return Err(Halt::Breach {
            rule: Rule::Return,
            line,
        });
    }
    if any_misdeclares(tables, names, task.clauses.as_slice()) {
        return Err(Halt::Breach {
            rule: Rule::Declared,
            line,
        });
    }
    Ok(())
}

/// What a task that begins on a line declares, but for names that are given twice.
fn check_task(alloc: Global, tables: &Tables, line: u32, task: &Task) -> Result<(), Halt>
    ensures { TellsAt Anything result (first_of (
        first_in (first_of_saying (tree_of tables.now)) (declarations_in (tree_of tables.now) task.now.params task.now.params)
        ∷ first_in (first_of_said (tree_of tables.now)) (declarations_in (tree_of tables.now) task.now.params task.now.params)
        ∷ told_on line (rule_if (is_no_result_type task.now.result) rule.Return)
        ∷ told_on line (rule_if (list_any (misdeclares (tree_of tables.now) (params_bound (tree_of tables.now) task.now.params)) task.now.clauses) rule.Declared)
        ∷ [])) }
{
    let names = bind_params(alloc, tables, task.params.as_slice())?;
    check_promises(tables, &names, line, task)
}

/// What an item declares.
pub fn check_declaration(alloc: Global, tables: &Tables, item: &Item) -> Result<(), Halt>
    ensures { TellsAt Anything result (first_declared (tree_of tables.now) (item_tree_of item.now)) }
{
    check_names_within(alloc, &item.what)?;
    match &item.what {
        ItemKind::Space(space) => check_space(alloc, tables, space),
        ItemKind::Task(task) => check_task(alloc, tables, item.line, task),
        _ => Ok(()),
    }
}

/// What all items of a program declare.
pub fn check_declarations(alloc: Global, tables: &Tables) -> Result<(), Halt>
    ensures { TellsAt Anything result (first_in (first_declared (tree_of tables.now)) (tree_of tables.now)) }
{
    let program = tables.program();
    for item in &program.items {
        check_declaration(alloc, tables, item)?;
    }
    Ok(())
}
