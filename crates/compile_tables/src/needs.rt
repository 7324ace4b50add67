//! The declared needs of a task: one for each privilege, region and field that a clause names.

ghost use Rattle.std.specs.Prelude.{◌≡◌, ◌++◌, ℕ, IfOk, OnOk, length, map};
ghost use Rattle.plain_values.specs.Points.{points};
ghost use Rattle.regent_tree.specs.Accesses.{space_in};
ghost use Rattle.regent_tree.specs.Cover.{space_named};
ghost use Rattle.regent_tree.specs.PlainProgram.{task_of, tree_of};
ghost use Rattle.regent_tree.specs.StaticTypes.{Looking, field_place, space_at, type_said};
ghost use Rattle.code_rules.specs.Needs.{fields_said, mode_of, needs_of_clause, needs_of_clauses, needs_of_grants, needs_of_place, needs_of_places};
ghost use Rattle.compile_tables.specs.Needs.{need_at};

use lane_kernels::Mode;
use plain_values::Sequence;
use program_tables::Tables;
use regent_tree::{Clause, Grant, Name, Place, Task, TypeTerm};
use static_types::place_in;
use std::alloc::{AllocError, Global};
use task_code::NeedCode;

/// A task, and the tables of its program.
#[derive(Clone, Copy)]
pub struct Declared<'a> {
    alloc: Global,
    tables: &'a Tables<'a>,
    task: &'a Task,
}

fn mode_of(grant: Grant) -> Mode
    ensures { result ≡ mode_of grant }
{
    match grant {
        Grant::Reads => Mode::Read,
        Grant::Writes => Mode::Write,
        Grant::Reduces(op) => Mode::Reduce(op),
    }
}

/// A place as a number of 8 bits. A greater one counts as a want of memory.
fn narrow(place: usize) -> Result<u8, AllocError>
    ensures { IfOk result (λ n. n ≡ place) }
{
    match u8::try_from(place) {
        Ok(place) => Ok(place),
        Err(_) => Err(AllocError),
    }
}

/// The field space that the type of a parameter names.
fn space_said(tables: &Tables, term: &TypeTerm) -> u32
    ensures { (look : Looking) (own : ℕ) → result ≡ space_in (type_said (tree_of tables.now) look own term.now) }
{
    match term {
        TypeTerm::Pointer(pointer) => tables.place_of_space(&pointer.space.name),
        TypeTerm::Region { space, .. } => tables.place_of_space(&space.name),
        _ => 0,
    }
}

fn field_place(tables: &Tables, space: u32, field: &Name) -> Result<u8, AllocError>
    ensures { IfOk result (λ p. p ≡ field_place (tree_of tables.now) space field.now) }
{
    match tables.space_at(space) {
        Some(found) => narrow(place_in(found.fields.as_slice(), field)),
        None => Ok(0),
    }
}

fn number_of_fields(tables: &Tables, space: u32) -> usize
    ensures { result ≡ length (space_at (tree_of tables.now) space).fields }
{
    match tables.space_at(space) {
        Some(found) => found.fields.len(),
        None => 0,
    }
}

fn all_fields(alloc: Global, count: usize) -> Result<Sequence<u8>, AllocError>
    ensures { IfOk result (λ fields. fields ≡ points count) }
{
    let mut fields = Sequence::new(alloc);
    for place in 0..count {
        fields.push(narrow(place)?)?;
    }
    Ok(fields)
}

impl<'a> Declared<'a> {
    /// The field space of the parameter with a name.
    fn space_named(&self, name: &Name) -> u32
        ensures { result ≡ space_named (tree_of self.now.tables.now) (task_of self.now.task.now) name.now }
    {
        let params = self.task.params.as_slice();
        match params.get(place_in(params, name)) {
            Some(param) => space_said(self.tables, &param.term),
            None => 0,
        }
    }

    fn fields_named(&self, space: u32, names: &[Name]) -> Result<Sequence<u8>, AllocError>
        ensures { IfOk result (λ fields. fields ≡ map (field_place (tree_of self.now.tables.now) space) names.now) }
    {
        let mut fields = Sequence::new(self.alloc);
        for name in names {
            fields.push(field_place(self.tables, space, name)?)?;
        }
        Ok(fields)
    }

    fn fields_said(
        &self,
        space: u32,
        fields: &Option<Sequence<Name>>,
    ) -> Result<Sequence<u8>, AllocError>
        ensures { IfOk result (λ places. places ≡ fields_said (tree_of self.now.tables.now) space fields.now) }
    {
        match fields {
            Some(names) => self.fields_named(space, names.as_slice()),
            None => all_fields(self.alloc, number_of_fields(self.tables, space)),
        }
    }

    fn place(
        &self,
        needs: &mut Sequence<NeedCode>,
        mode: Mode,
        place: &Place,
    ) -> Result<(), AllocError>
        ensures { OnOk result (needs.new
            ≡ needs.old ++ needs_of_place (tree_of self.now.tables.now) (task_of self.now.task.now) mode place.now) }
    {
        let param = narrow(place_in(self.task.params.as_slice(), &place.region))?;
        let fields = self.fields_said(self.space_named(&place.region), &place.fields)?;
        add_needs(needs, param, fields.as_slice(), mode)
    }

    fn places(
        &self,
        needs: &mut Sequence<NeedCode>,
        mode: Mode,
        places: &[Place],
    ) -> Result<(), AllocError>
        ensures { OnOk result (needs.new
            ≡ needs.old ++ needs_of_places (tree_of self.now.tables.now) (task_of self.now.task.now) mode places.now) }
    {
        for place in places {
            self.place(needs, mode, place)?;
        }
        Ok(())
    }

    fn grants(
        &self,
        needs: &mut Sequence<NeedCode>,
        grants: &[Grant],
        places: &[Place],
    ) -> Result<(), AllocError>
        ensures { OnOk result (needs.new
            ≡ needs.old ++ needs_of_grants (tree_of self.now.tables.now) (task_of self.now.task.now) grants.now places.now) }
    {
        for grant in grants {
            self.places(needs, mode_of(*grant), places)?;
        }
        Ok(())
    }

    fn clause(&self, needs: &mut Sequence<NeedCode>, clause: &Clause) -> Result<(), AllocError>
        ensures { OnOk result (needs.new
            ≡ needs.old ++ needs_of_clause (tree_of self.now.tables.now) (task_of self.now.task.now) clause.now) }
    {
        match clause {
            Clause::Grants { grants, places } => {
                self.grants(needs, grants.as_slice(), places.as_slice())
            }
            _ => Ok(()),
        }
    }

    fn clauses(&self, needs: &mut Sequence<NeedCode>, clauses: &[Clause]) -> Result<(), AllocError>
        ensures { OnOk result (needs.new
            ≡ needs.old ++ needs_of_clauses (tree_of self.now.tables.now) (task_of self.now.task.now) clauses.now) }
    {
        for clause in clauses {
            self.clause(needs, clause)?;
        }
        Ok(())
    }
}

/// A parameter's needs, one for each of some fields.
fn add_needs(
    needs: &mut Sequence<NeedCode>,
    param: u8,
    fields: &[u8],
    mode: Mode,
) -> Result<(), AllocError>
    ensures { OnOk result (needs.new ≡ needs.old ++ map (need_at param mode) fields.now) }
{
    for field in fields {
        needs.push(NeedCode {
            param,
            field: *field,
            mode,
        })?;
    }
    Ok(())
}

/// The needs that a task's clauses declare, in the order of the text. A parameter's or a field's place that
/// passes 8 bits counts as a want of memory.
pub fn declared_needs(
    alloc: Global,
    tables: &Tables,
    task: &Task,
) -> Result<Sequence<NeedCode>, AllocError>
    ensures { IfOk result (λ needs. needs
        ≡ needs_of_clauses (tree_of tables.now) (task_of task.now) task.now.clauses) }
{
    let declared = Declared {
        alloc,
        tables,
        task,
    };
    let mut needs = Sequence::new(alloc);
    declared.clauses(&mut needs, task.clauses.as_slice())?;
    Ok(needs)
}
