//! The names of a program's items, with the places of its tasks.

ghost use Rattle.std.specs.Prelude.{◌≡◌, ◌++◌, IfOk, OnOk};
ghost use Rattle.regent_tree.specs.PlainProgram.{tree_of};
ghost use Rattle.code_rules.specs.Instructions.{place_of_task};
ghost use Rattle.compile_types.specs.Symbols.{named_tasks, place_among, tasks_in};

use program_tables::Tables;
use regent_tree::{Item, ItemKind, Name, Program, Task};
use static_types::number_at;
use std::alloc::{AllocError, Global};
use std::marker::Model;

/// The tables of a program's names, and its tasks in the order of the text, seen as the program.
#[derive(Drop)]
pub struct Symbols<'a> {
    tables: Tables<'a>,
    tasks: Vec<&'a Task>,
}

impl<'a> Model for Symbols<'a> {
    ghost use Rattle.std.specs.Prelude.{◌≡◌};
    ghost use Rattle.regent_tree.specs.declared.program.Program.{Program};
    ghost use Rattle.regent_tree.specs.contracts.program.Program as program_type;
    ghost use Rattle.compile_types.specs.Symbols.{named_tasks, tasks_in};

    ghost Value = { Program };

    ghost coded = { program_type.the_row.coded };

    ghost view = { λ s. s.tables };

    ghost invariant = { λ s. named_tasks s.tasks.items ≡ tasks_in s.tables.items.items };
}

/// The tasks among items.
fn tasks_among<'a>(alloc: Global, items: &'a [Item]) -> Result<Vec<&'a Task>, AllocError>
    ensures { IfOk result (λ tasks. named_tasks tasks.items ≡ tasks_in items.now) }
{
    let mut tasks = Vec::new(alloc);
    for item in items {
        if let ItemKind::Task(task) = &item.what {
            tasks.push(task)?;
        }
    }
    Ok(tasks)
}

/// The place of the first task with a name, or the number of tasks.
fn place_among(tasks: &[&Task], name: &Name) -> usize
    ensures { result ≡ place_among (named_tasks tasks.now) name.now }
{
    for (place, task) in tasks.iter().enumerate() {
        if task.name == *name {
            return place;
        }
    }
    tasks.len()
}

impl<'a> Symbols<'a> {
    pub fn new(alloc: Global, program: &'a Program) -> Result<Symbols<'a>, AllocError>
        ensures { IfOk result (λ s. s ≡ program.now) }
    {
        let tables = Tables::new(alloc, program)?;
        let tasks = tasks_among(alloc, &program.items)?;
        Ok(Symbols { tables, tasks })
    }

    pub fn tables(&self) -> &Tables<'a>
        ensures { result.now ≡ self.now }
    {
        &self.tables
    }

    /// The tasks in the order of the text.
    pub fn tasks(&self) -> &[&'a Task]
        ensures { named_tasks result.now ≡ tasks_in self.now.items.items }
    {
        self.tasks.as_slice()
    }

    /// The place of a task among the program's, or where there is none of that name the number of tasks.
    #[tactic(auto, using(crate::proofs::Places::place_among_items))]
    pub fn place_of_task(&self, name: &Name) -> Result<u32, AllocError>
        ensures { IfOk result (λ p. p ≡ place_of_task (tree_of self.now) name.now) }
    {
        number_at(place_among(&self.tasks, name))
    }
}
