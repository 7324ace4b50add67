//! The code of programs.

ghost use Rattle.std.specs.Prelude.{◌≡◌, IfOk, map};
ghost use Rattle.regent_tree.specs.PlainProgram.{item_tree_of, task_of, tree_of};
ghost use Rattle.regent_tree.specs.StaticTypes.{entry_name};
ghost use Rattle.code_rules.specs.Instructions.{place_of_task, tasks_of};
ghost use Rattle.compile_types.specs.Symbols.{named_tasks};
ghost use Rattle.code_gen.specs.Shaped.{code_by, codes_by};

use crate::tasks::task_code;
use check_rules::LoopShape;
use compile_statements::Shapes;
use compile_tables::spaces_of_program;
use compile_types::Symbols;
use plain_values::Sequence;
use program_tables::copy_name;
use regent_tree::{Item, ItemKind, Name, Program, Task};
use std::alloc::{AllocError, Global};
use task_code::{Code, TaskCode};

/// The code of tasks, in their order.
fn code_of_tasks(
    alloc: Global,
    symbols: &Symbols,
    shapes: &mut Shapes,
    tasks: &[&Task],
) -> Result<Sequence<TaskCode>, AllocError>
    ensures { IfOk result (λ codes. codes
        ≡ codes_by shapes.old (tree_of symbols.now) (map task_of (named_tasks tasks.now))) }
{
    let mut codes = Sequence::new(alloc);
    for task in tasks {
        let code = task_code(alloc, symbols, shapes, task)?;
        codes.push(code)?;
    }
    Ok(codes)
}

/// The name of the entry task: `main` where no item says one.
fn entry_name(alloc: Global, items: &[Item]) -> Result<Name, AllocError>
    ensures { IfOk result (λ n. n ≡ entry_name (map item_tree_of items.now)) }
{
    for item in items {
        if let ItemKind::Start { name } = &item.what {
            return copy_name(alloc, name);
        }
    }
    Sequence::from_slice(alloc, b"main")
}

/// The place of the entry task.
fn start_of(alloc: Global, symbols: &Symbols) -> Result<u32, AllocError>
    ensures { IfOk result (λ p. p ≡ place_of_task (tree_of symbols.now) (entry_name (tree_of symbols.now))) }
{
    let program = symbols.tables().program();
    let name = entry_name(alloc, &program.items)?;
    symbols.place_of_task(&name)
}

/// The code of a program, by the tables of its names and the shapes of its loops.
#[tactic(auto, using(crate::proofs::OfItems::tasks_of_items))]
fn code_by(alloc: Global, symbols: &Symbols, shapes: &mut Shapes) -> Result<Code, AllocError>
    ensures { IfOk result (λ code. code ≡ code_by shapes.old (tree_of symbols.now)) }
{
    let start = start_of(alloc, symbols)?;
    let tasks = code_of_tasks(alloc, symbols, shapes, symbols.tasks())?;
    let spaces = spaces_of_program(alloc, symbols.tables().program())?;
    Ok(Code {
        tasks,
        spaces,
        start,
    })
}

/// The code of a program, by the shapes of its loops.
pub fn code_of(alloc: Global, program: &Program, loops: &[LoopShape]) -> Result<Code, AllocError>
    ensures { IfOk result (λ code. code ≡ code_by loops.now (tree_of program.now)) }
{
    let symbols = Symbols::new(alloc, program)?;
    let mut shapes = Shapes::new(loops);
    code_by(alloc, &symbols, &mut shapes)
}
