//! A program whose declarations have no breach.

ghost use Rattle.std.specs.Prelude.{◌≡◌, IfOk, IfSome, IfNone, is_some, false, true};
ghost use Rattle.regent_tree.specs.Lookup.{has_field, has_task};
ghost use Rattle.regent_tree.specs.PlainProgram.{tree_of, task_of};
ghost use Rattle.regent_tree.specs.StaticTypes.{among_args, field_place, field_term, space_at, task_named, type_said};
ghost use Rattle.check_rules.specs.types.Declarations.{params_bound, params_of, is_flawed_field, is_no_result_type};
ghost use Rattle.regent_tree.specs.Scopes.{scope_of};
ghost use Rattle.check_rules.specs.scopes.Bodies.{body_scope};
ghost use Rattle.check_rules.specs.rules.Clauses.{clauses_told};
ghost use Rattle.check_rules.specs.types.Params.{types_in_order};
ghost use Rattle.check_rules.specs.rules.Privileges.{rights_declared, rights_told};
ghost use Rattle.check_rules.specs.scopes.Sound.{IsSound, StandsIn};

use program_tables::{Names, Tables, place_in};
use regent_tree::{Name, Param, Reach, StaticType, Task, TypeTerm};
use static_types::{Arguments, bind_written, said_params, type_said};
use std::alloc::{AllocError, Global};
use std::marker::Model;

/// A program's tables, where its declarations have no breach.
#[derive(Drop)]
pub struct Declared<'a> {
    tables: Tables<'a>,
}

impl<'a> Model for Declared<'a> {
    ghost use Rattle.regent_tree.specs.declared.program.Program.{Program};
    ghost use Rattle.regent_tree.specs.contracts.program.Program as program_type;
    ghost use Rattle.regent_tree.specs.PlainProgram.{tree_of};
    ghost use Rattle.check_rules.specs.scopes.Sound.{IsSound};

    ghost Value = { Program };

    ghost coded = { program_type.the_row.coded };

    ghost view = { λ d. d.tables };

    ghost invariant = { λ d. IsSound (tree_of d.tables) };
}

/// The parameters of the field space at a place.
fn params_at<'a>(tables: &Tables<'a>, space: u32) -> &'a [Param]
    ensures { result.now ≡ (space_at (tree_of tables.now) space).params }
{
    match tables.space_at(space) {
        Some(found) => found.params.as_slice(),
        None => &[],
    }
}

impl<'a> Declared<'a> {
    /// Tables of a program of which it is known that its declarations have no breach.
    pub fn new(tables: Tables<'a>) -> Declared<'a>
        requires { IsSound (tree_of tables) }
        ensures { result ≡ tables.entry }
    {
        Declared { tables }
    }

    /// The tables of the program's names.
    pub fn tables(&self) -> &Tables<'a>
        ensures { result.now ≡ self.now }
    {
        &self.tables
    }

    /// The types of the parameters of a task.
    pub fn params_of(
        &self,
        alloc: Global,
        task: &Task,
        name: &Name,
    ) -> Result<Vec<StaticType>, AllocError>
        requires { task_of task.now ≡ task_named (tree_of self.now) name.now }
        ensures { IfOk result (λ types. types.items ≡ params_of (tree_of self.now) name.now) }
    {
        said_params(alloc, &self.tables, task.params.as_slice())
    }

    /// The place of a field in its field space, and the field.
    #[tactic(auto, using(crate::proofs::Places::place_within))]
    pub fn field(&self, space: u32, name: &Name) -> Option<(usize, &'a Param)>
        ensures found { is_some result ≡ has_field (tree_of self.now) space name.now }
        ensures place { IfSome result (λ f. f.0 ≡ field_place (tree_of self.now) space name.now) }
        ensures term { IfSome result (λ f. f.1.now.term
            ≡ field_term (tree_of self.now) space (field_place (tree_of self.now) space name.now)) }
        ensures sound { IfSome result (λ f. is_flawed_field (tree_of self.now) space name.now ≡ false) }
    {
        let fields = self.tables.space_at(space)?.fields.as_slice();
        let place = place_in(fields, name)?;
        Some((place, &fields[place]))
    }

    /// The type that a field's term says in a field space with these arguments.
    pub fn field_said(
        &self,
        alloc: Global,
        space: u32,
        args: &[Reach],
        term: &TypeTerm,
    ) -> Result<StaticType, AllocError>
        ensures { IfOk result (λ t. t ≡ type_said (tree_of self.now)
            (among_args (space_at (tree_of self.now) space).params args.now) 0 term.now) }
    {
        let params = params_at(&self.tables, space);
        let look = Arguments { params, args };
        type_said(alloc, &self.tables, &look, 0, term)
    }

    /// No task's result type has a breach.
    pub fn has_sound_results(&self, name: &Name)
        ensures { is_no_result_type (task_named (tree_of self.now) name.now).result ≡ false }
    {
        let _tables = &self.tables;
    }

    /// No clause of a task has a breach, so that all of them tell.
    pub fn has_sound_clauses(&self, name: &Name)
        ensures clauses { clauses_told (tree_of self.now) (task_named (tree_of self.now) name.now)
            ≡ (task_named (tree_of self.now) name.now).clauses }
        ensures rights { rights_told (tree_of self.now) (task_named (tree_of self.now) name.now)
            ≡ rights_declared (tree_of self.now) (task_named (tree_of self.now) name.now) }
    {
        let _tables = &self.tables;
    }

    /// The names of the parameters of a task of the program.
    pub fn bind_params(&self, alloc: Global, task: &Task) -> Result<Names, AllocError>
        requires { StandsIn (tree_of self.now) (task_of task.now) }
        ensures { IfOk result (λ names. names ≡ params_bound (tree_of self.now) task.now.params) }
    {
        bind_written(alloc, &self.tables, task.params.as_slice())
    }

    /// The types of the parameters of a task of the program.
    pub fn param_types(&self, alloc: Global, task: &Task) -> Result<Vec<StaticType>, AllocError>
        requires { StandsIn (tree_of self.now) (task_of task.now) }
        ensures { IfOk result (λ types. types.items ≡ types_in_order (params_bound (tree_of self.now) task.now.params)) }
    {
        said_params(alloc, &self.tables, task.params.as_slice())
    }

    /// A task of the program has its parameters as they are written, and a sound result type.
    pub fn has_sound_task(&self, task: &Task)
        requires { StandsIn (tree_of self.now) (task_of task.now) }
        ensures scope { body_scope (tree_of self.now) (task_of task.now) ≡ scope_of (tree_of self.now) (task_of task.now) }
        ensures returns { is_no_result_type task.now.result ≡ false }
    {
        let _tables = &self.tables;
    }
}
