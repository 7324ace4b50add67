//! Names that are given twice.

ghost use Rattle.std.specs.Prelude.{◌≡◌, ◌++◌, ◌∷◌, [], OnOk, bytes_eq, flat_map, map, option_to_list};
ghost use Rattle.std.specs.List.{list_any};
ghost use Rattle.std.specs.Option.{option_copied};
ghost use Rattle.regent_tree.specs.PlainProgram.{item_of, item_tree_of, tree_of};
ghost use Rattle.check_rules.specs.first.FirstInItems.{first_line, first_repeated};
ghost use Rattle.check_rules.specs.first.FirstInStatements.{told_on};
ghost use Rattle.check_rules.specs.rules.Repeats.{given_by, repeats, repeats_within};
ghost use Rattle.check_rules.specs.first.Rules.{rule_if};
ghost use Rattle.check_rules.specs.declared.rule.Rule.TheVariants as rule;
ghost use Rattle.static_types.specs.Telling.{Anything};
ghost use Rattle.check_items.specs.Given.{given_as, names_of};
ghost use Rattle.check_items.specs.Halting.{TellsAt};

use crate::halt::Halt;
use check_rules::Rule;
use indexmap::IndexSet;
use program_tables::copy_name;
use regent_tree::{Item, ItemKind, Name, Param, Program};
use std::alloc::Global;

/// What a name of the whole text is given to.
#[derive(Clone, Copy)]
pub enum Sort {
    Task,
    Space,
    Alias,
}

/// The name that an item gives to a thing of a sort.
fn name_in(sort: Sort, item: &ItemKind) -> Option<&Name>
    ensures { option_to_list (option_copied result) ≡ names_of sort item.now }
{
    match (sort, item) {
        (Sort::Task, ItemKind::Task(task)) => Some(&task.name),
        (Sort::Space, ItemKind::Space(space)) => Some(&space.name),
        (Sort::Alias, ItemKind::Alias { name }) => Some(name),
        _ => None,
    }
}

/// Notes a name, which must not be among those that were given before.
fn note(alloc: Global, given: &mut IndexSet<Name>, name: &Name, line: u32) -> Result<(), Halt>
    ensures told { TellsAt Anything result
        (told_on line (rule_if (list_any (bytes_eq name.now) given.old.keys) rule.Twice)) }
    ensures noted { OnOk result (given.new.keys ≡ given.old.keys ++ name.now ∷ []) }
{
    if given.contains(name) {
        return Err(Halt::Breach {
            rule: Rule::Twice,
            line,
        });
    }
    given.insert(copy_name(alloc, name)?)?;
    Ok(())
}

/// Whether two parameters or fields of a list share a name.
#[tactic(auto, using(crate::proofs::Again::first_repeat))]
fn check_list(alloc: Global, params: &[Param]) -> Result<(), Halt>
    ensures { TellsAt Anything result (first_line rule.Twice (repeats (given_by params.now))) }
{
    let mut given = IndexSet::new(alloc);
    for param in params {
        note(alloc, &mut given, &param.name, param.line)?;
    }
    Ok(())
}

/// Whether two things of a sort share a name.
#[tactic(auto, using(crate::proofs::Again::first_repeat_in))]
fn check_sort(alloc: Global, items: &[Item], sort: Sort) -> Result<(), Halt>
    ensures { TellsAt Anything result
        (first_line rule.Twice (repeats (flat_map (given_as sort) (map item_tree_of items.now)))) }
{
    let mut given = IndexSet::new(alloc);
    for item in items {
        if let Some(name) = name_in(sort, &item.what) {
            note(alloc, &mut given, name, item.line)?;
        }
    }
    Ok(())
}

/// Whether two tasks, two field spaces or two aliases share a name.
pub fn check_names(alloc: Global, program: &Program) -> Result<(), Halt>
    ensures { TellsAt Anything result (first_repeated (tree_of program.now)) }
{
    let items = program.items.as_slice();
    check_sort(alloc, items, Sort::Task)?;
    check_sort(alloc, items, Sort::Space)?;
    check_sort(alloc, items, Sort::Alias)
}

/// Whether two parameters or two fields of one item share a name.
#[tactic(auto, using(crate::proofs::Again::first_line_append))]
pub fn check_names_within(alloc: Global, item: &ItemKind) -> Result<(), Halt>
    ensures { TellsAt Anything result (first_line rule.Twice (repeats_within (item_of item.now))) }
{
    match item {
        ItemKind::Space(space) => {
            check_list(alloc, space.params.as_slice())?;
            check_list(alloc, space.fields.as_slice())
        }
        ItemKind::Task(task) => check_list(alloc, task.params.as_slice()),
        _ => Ok(()),
    }
}
