//! Programs.

ghost use Rattle.std.specs.Prelude.{◌≡◌, [], ◌∷◌, map};
ghost use Rattle.regent_tree.specs.Limits.{counted, first_excess, most, parts_of_item};
ghost use Rattle.regent_tree.specs.Limits.{parts_of_items, parts_of_program, spaces_in, tasks_in};
ghost use Rattle.regent_tree.specs.PlainProgram.{item_of, item_tree_of, task_of, tree_of};
ghost use Rattle.regent_tree.specs.Syntax.{space_item, task_item};
ghost use Rattle.read_limits.specs.Parts.{is_space, is_task};

use crate::statements::{in_params, in_statements, in_type};
use regent_tree::{Counted, Excess, FieldSpace, Item, ItemKind, Program, Task};

/// The limit of a counted thing.
fn most(what: Counted) -> usize
    ensures { result ≡ most what }
{
    match what {
        Counted::Tasks => 256,
        Counted::Spaces => 256,
        Counted::Fields => 16,
        Counted::Parameters => 16,
        Counted::Regions => 4,
    }
}

/// An excess, if the count is over its limit.
fn excess(what: Counted, count: usize) -> Option<Excess>
    ensures { result ≡ first_excess (counted what count ∷ []) }
{
    if count > most(what) {
        Some(Excess { what, count })
    } else {
        None
    }
}

/// The first excess in a field space.
fn in_space(space: &FieldSpace) -> Option<Excess>
    ensures { result ≡ first_excess (parts_of_item (space_item space.now)) }
{
    let fields = excess(Counted::Fields, space.fields.len());
    let params = excess(Counted::Parameters, space.params.len());
    let types = in_params(space.params.as_slice()).or(in_params(space.fields.as_slice()));
    fields.or(params.or(types))
}

/// The first excess in a task.
fn in_task(task: &Task) -> Option<Excess>
    ensures { result ≡ first_excess (parts_of_item (task_item (task_of task.now))) }
{
    let params = excess(Counted::Parameters, task.params.len());
    let types = in_params(task.params.as_slice());
    let inside = in_type(&task.result).or(in_statements(task.body.as_slice()));
    params.or(types.or(inside))
}

/// The first excess in an item.
fn in_item(item: &ItemKind) -> Option<Excess>
    ensures { result ≡ first_excess (parts_of_item (item_of item.now)) }
{
    match item {
        ItemKind::Import | ItemKind::Alias { .. } | ItemKind::Start { .. } => None,
        ItemKind::Space(space) => in_space(space),
        ItemKind::Task(task) => in_task(task),
    }
}

/// The first excess in items.
fn in_items(items: &[Item]) -> Option<Excess>
    ensures { result ≡ first_excess (parts_of_items (map item_tree_of items.now)) }
{
    for item in items {
        if let Some(excess) = in_item(&item.what) {
            return Some(excess);
        }
    }
    None
}

fn is_task(item: &Item) -> bool
    ensures { result ≡ is_task (item_of item.now.what) }
{
    match &item.what {
        ItemKind::Task(_) => true,
        _ => false,
    }
}

fn is_space(item: &Item) -> bool
    ensures { result ≡ is_space (item_of item.now.what) }
{
    match &item.what {
        ItemKind::Space(_) => true,
        _ => false,
    }
}

/// The number of tasks.
fn tasks_in(items: &[Item]) -> usize
    ensures { result ≡ tasks_in (map item_tree_of items.now) }
{
    let mut count = 0;
    for item in items {
        if is_task(item) {
            count += 1;
        }
    }
    count
}

/// The number of field spaces.
fn spaces_in(items: &[Item]) -> usize
    ensures { result ≡ spaces_in (map item_tree_of items.now) }
{
    let mut count = 0;
    for item in items {
        if is_space(item) {
            count += 1;
        }
    }
    count
}

/// The first thing of which a program has too many, in the order of the text.
pub fn first_excess(program: &Program) -> Option<Excess>
    ensures { result ≡ first_excess (parts_of_program (tree_of program.now)) }
{
    let items = program.items.as_slice();
    let tasks = excess(Counted::Tasks, tasks_in(items));
    let spaces = excess(Counted::Spaces, spaces_in(items));
    tasks.or(spaces.or(in_items(items)))
}
