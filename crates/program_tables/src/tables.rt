//! The tables of a program's names.

ghost use Rattle.std.specs.Prelude.{◌≡◌, [], ◌++◌, OnOk, ◌<◌, ◌↔◌, length, is_some, IsSome, IfSome, IfNone, IfOk};
ghost use Rattle.program_tables.specs.Kinds.{as_tasks, as_spaces, as_aliases, no_space};
ghost use Rattle.regent_tree.specs.Lookup.{has_task, has_space, has_alias};
ghost use Rattle.regent_tree.specs.PlainProgram.{tree_of, task_of};
ghost use Rattle.regent_tree.specs.StaticTypes.{no_task, task_named, place_of_space, space_at, spaces_of};

use crate::table::Table;
use regent_tree::{FieldSpace, Item, ItemKind, Name, Program, Task};
use std::alloc::{AllocError, Global};
use std::marker::Model;

/// The items with names, kind by kind, each kind in the order of adding.
#[derive(Drop)]
struct NamedItems<'a> {
    tasks: Table<'a, Task>,
    spaces: Table<'a, FieldSpace>,
    aliases: Table<'a, Name>,
}

impl<'a> NamedItems<'a> {
    fn new(alloc: Global) -> NamedItems<'a>
        ensures tasks { result.tasks ≡ [] }
        ensures spaces { result.spaces ≡ [] }
        ensures aliases { result.aliases ≡ [] }
    {
        NamedItems {
            tasks: Table::new(alloc),
            spaces: Table::new(alloc),
            aliases: Table::new(alloc),
        }
    }

    fn add(&mut self, item: &'a Item) -> Result<(), AllocError>
        ensures tasks { OnOk result (self.new.tasks ≡ self.old.tasks ++ as_tasks item.now.what) }
        ensures spaces { OnOk result (self.new.spaces ≡ self.old.spaces ++ as_spaces item.now.what) }
        ensures aliases { OnOk result (self.new.aliases ≡ self.old.aliases ++ as_aliases item.now.what) }
    {
        match &item.what {
            ItemKind::Task(task) => self.tasks.add(task),
            ItemKind::Space(space) => self.spaces.add(space),
            ItemKind::Alias { name } => self.aliases.add(name),
            ItemKind::Import | ItemKind::Start { .. } => Ok(()),
        }
    }
}

/// The names of a program's items, seen as the program. Of two items with one name the first
/// counts.
#[derive(Drop)]
pub struct Tables<'a> {
    program: &'a Program,
    items: NamedItems<'a>,
}

impl<'a> Model for Tables<'a> {
    ghost use Rattle.regent_tree.specs.declared.program.Program.{Program};
    ghost use Rattle.program_tables.specs.Kinds.{AreOfKinds};

    ghost Value = { Program };

    ghost use Rattle.regent_tree.specs.contracts.program.Program as program_type;

    ghost coded = { program_type.the_row.coded };

    ghost view = { λ t. t.program.now };

    ghost invariant = { λ t. AreOfKinds t.program.now.items.items t.items.tasks t.items.spaces t.items.aliases };
}

impl<'a> Tables<'a> {
    /// So many items of one kind that a place needs more than 32 bits count as a want of memory.
    pub fn new(alloc: Global, program: &'a Program) -> Result<Tables<'a>, AllocError>
        ensures { IfOk result (λ tables. tables ≡ program.now) }
    {
        let mut items = NamedItems::new(alloc);
        for item in &program.items {
            items.add(item)?;
        }
        Ok(Tables { program, items })
    }

    pub fn program(&self) -> &'a Program
        ensures { result.now ≡ self.now }
    {
        self.program
    }

    /// The task with a name.
    pub fn task(&self, name: &Name) -> Option<&'a Task>
        ensures found { is_some result ≡ has_task (tree_of self.now) name.now }
        ensures task { IfSome result (λ t. task_of t.now ≡ task_named (tree_of self.now) name.now) }
        ensures missing { IfNone result (task_named (tree_of self.now) name.now ≡ no_task) }
    {
        self.items.tasks.first(name)
    }

    /// The place of the field space with a name among the program's.
    pub fn space(&self, name: &Name) -> Option<u32>
        ensures found { is_some result ≡ has_space (tree_of self.now) name.now }
        ensures place { IfSome result (λ p. p ≡ place_of_space (tree_of self.now) name.now) }
        ensures within { IfSome result (λ p. p < length (spaces_of (tree_of self.now))) }
    {
        self.items.spaces.place(name)
    }

    /// The place of the field space with a name, or where there is none the number of field spaces.
    pub fn place_of_space(&self, name: &Name) -> u32
        ensures { result ≡ place_of_space (tree_of self.now) name.now }
    {
        let spaces = &self.items.spaces;
        spaces.place(name).unwrap_or(spaces.len())
    }

    /// The field space at a place.
    pub fn space_at(&self, place: u32) -> Option<&'a FieldSpace>
        ensures found { IsSome result ↔ (place < length (spaces_of (tree_of self.now))) }
        ensures space { IfSome result (λ s. s.now ≡ space_at (tree_of self.now) place) }
        ensures missing { IfNone result (space_at (tree_of self.now) place ≡ no_space) }
    {
        self.items.spaces.get(place)
    }

    pub fn has_alias(&self, name: &Name) -> bool
        ensures { result ≡ has_alias (tree_of self.now) name.now }
    {
        self.items.aliases.place(name).is_some()
    }
}
