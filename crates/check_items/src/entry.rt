//! The task that a program starts with.

ghost use Rattle.std.specs.Prelude.{◌≡◌, IfOk, flat_map, map, option_to_list, filter, not};
ghost use Rattle.std.specs.Option.{option_map};
ghost use Rattle.regent_tree.specs.PlainProgram.{item_tree_of, task_of, tree_of};
ghost use Rattle.regent_tree.specs.StaticTypes.{entry_name, task_named};
ghost use Rattle.regent_tree.specs.declared.types.Param.{Param};
ghost use Rattle.check_rules.specs.Acceptance.{input_widths};
ghost use Rattle.check_rules.specs.first.FirstInItems.{first_line};
ghost use Rattle.check_rules.specs.rules.Entries.{is_integer_term, later_lines, wrong_entry_lines, missing_lines, entry_given};
ghost use Rattle.check_rules.specs.declared.rule.Rule.TheVariants as rule;
ghost use Rattle.static_types.specs.Telling.{Anything};
ghost use Rattle.check_items.specs.Halting.{TellsAt};
ghost use Rattle.check_items.specs.Entries.{given_by_begin, entry_line, entry_named, width_of_term};

use crate::halt::Halt;
use check_rules::Rule;
use lane_kernels::Width;
use plain_values::Sequence;
use program_tables::{Tables, copy_name};
use regent_tree::{Item, ItemKind, Name, NumberTerm, Param, Task, TypeTerm};
use std::alloc::{AllocError, Global};

/// An item that says which task is started.
#[derive(Clone, Copy)]
struct Begin<'a> {
    name: &'a Name,
    line: u32,
}

/// The first item that says which task is started.
fn first_start_item(items: &[Item]) -> Option<Begin<'_>>
    ensures { entry_named (option_to_list (option_map given_by_begin result)) ≡ entry_name (map item_tree_of items.now) }
{
    for item in items {
        if let ItemKind::Start { name } = &item.what {
            return Some(Begin {
                name,
                line: item.line,
            });
        }
    }
    None
}

/// The item that says which task is started, of which there may be only one.
fn only_start_item(items: &[Item]) -> Result<Option<Begin<'_>>, Halt>
    ensures { TellsAt
        (λ b. option_to_list (option_map given_by_begin b) ≡ flat_map entry_given (map item_tree_of items.now))
        result (first_line rule.Start (later_lines (flat_map entry_given (map item_tree_of items.now)))) }
{
    let mut found: Option<Begin> = None;
    for item in items {
        if let ItemKind::Start { name } = &item.what {
            if found.is_some() {
                return Err(Halt::Breach {
                    rule: Rule::Start,
                    line: item.line,
                });
            }
            found = Some(Begin {
                name,
                line: item.line,
            });
        }
    }
    Ok(found)
}

/// The name of the entry task.
fn entry_task_name(alloc: Global, start_item: Option<Begin>) -> Result<Name, AllocError>
    ensures { IfOk result (λ n. n ≡ entry_named (option_to_list (option_map given_by_begin start_item.entry))) }
{
    match start_item {
        Some(begin) => copy_name(alloc, begin.name),
        None => Sequence::from_slice(alloc, b"main"),
    }
}

/// The line on which it is told that the entry task isn't there.
fn line_of_start_item(start_item: Option<Begin>) -> u32
    ensures { result ≡ entry_line (option_to_list (option_map given_by_begin start_item.entry)) }
{
    match start_item {
        Some(begin) => begin.line,
        None => 1,
    }
}

/// The entry task, which must be there.
fn entry_task<'a>(
    alloc: Global,
    tables: &Tables<'a>,
    start_item: Option<Begin>,
) -> Result<&'a Task, Halt>
    requires { entry_named (option_to_list (option_map given_by_begin start_item)) ≡ entry_name (tree_of tables.now) }
    ensures { TellsAt
        (λ t. task_of t.now ≡ task_named (tree_of tables.now) (entry_name (tree_of tables.now)))
        result (first_line rule.Start (missing_lines (tree_of tables.now) (option_to_list (option_map given_by_begin start_item.entry)))) }
{
    let name = entry_task_name(alloc, start_item)?;
    match tables.task(&name) {
        Some(task) => Ok(task),
        None => Err(Halt::Breach {
            rule: Rule::Start,
            line: line_of_start_item(start_item),
        }),
    }
}

fn is_integer_term(term: &TypeTerm) -> bool
    ensures { result ≡ is_integer_term term.now }
{
    matches!(
        term,
        TypeTerm::Number(NumberTerm::Int32) | TypeTerm::Number(NumberTerm::Int64)
    )
}

/// Whether the entry task takes nothing but integers.
fn check_inputs(params: &[Param]) -> Result<(), Halt>
    ensures { TellsAt Anything result (first_line rule.Start (map (λ (p : Param). p.line)
        (filter (λ (p : Param). not (is_integer_term p.term)) params.now))) }
{
    for param in params {
        if !is_integer_term(&param.term) {
            return Err(Halt::Breach {
                rule: Rule::Start,
                line: param.line,
            });
        }
    }
    Ok(())
}

/// Whether a program starts with one task that is there and takes integers alone.
#[tactic(auto, using(crate::proofs::Again::first_line_append, crate::proofs::Entries::entry_named_is))]
pub fn check_entry(alloc: Global, tables: &Tables) -> Result<(), Halt>
    ensures { TellsAt Anything result (first_line rule.Start (wrong_entry_lines (tree_of tables.now))) }
{
    let start_item = only_start_item(tables.program().items.as_slice())?;
    let task = entry_task(alloc, tables, start_item)?;
    check_inputs(task.params.as_slice())
}

fn width_of(term: &TypeTerm) -> Width
    ensures { result ≡ width_of_term term.now }
{
    match term {
        TypeTerm::Number(NumberTerm::Int32) => Width::W32,
        _ => Width::W64,
    }
}

fn widths_of(alloc: Global, params: &[Param]) -> Result<Vec<Width>, AllocError>
    ensures { IfOk result (λ ws. ws.items ≡ map (λ (p : Param). width_of_term p.term) params.now) }
{
    let mut widths = Vec::new(alloc);
    for param in params {
        widths.push(width_of(&param.term))?;
    }
    Ok(widths)
}

/// The widths of the numbers that are given to the entry task, in the order of its parameters.
#[tactic(auto, using(crate::proofs::Entries::widths_written))]
pub fn input_widths(alloc: Global, tables: &Tables) -> Result<Vec<Width>, AllocError>
    ensures { IfOk result (λ ws. ws.items ≡ input_widths (tree_of tables.now)) }
{
    let start_item = first_start_item(tables.program().items.as_slice());
    let name = entry_task_name(alloc, start_item)?;
    match tables.task(&name) {
        Some(task) => widths_of(alloc, task.params.as_slice()),
        None => Ok(Vec::new(alloc)),
    }
}
