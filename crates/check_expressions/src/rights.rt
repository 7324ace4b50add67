//! The privileges that a task declares.

ghost use Rattle.std.specs.Prelude.{◌≡◌, ◌++◌, IfOk, OnOk, filter, flat_map, map};
ghost use Rattle.regent_tree.specs.Lookup.{has_param};
ghost use Rattle.regent_tree.specs.PlainProgram.{task_of, tree_of};
ghost use Rattle.regent_tree.specs.StaticTypes.{place_in, space_at};
ghost use Rattle.regent_tree.specs.declared.types.Param.{Param};
ghost use Rattle.check_rules.specs.types.Declarations.{params_bound};
ghost use Rattle.check_rules.specs.rules.Privileges.{a_right, access_of_grant, fields_named, rights_declared, rights_of_clause, rights_of_place, rights_on};
ghost use Rattle.check_rules.specs.types.Sorts.{type_at};
ghost use Rattle.check_rules.specs.types.Params.{types_in_order};
ghost use Rattle.check_expressions.specs.Granting.{AreTyped, granted_on};

use crate::declared::Declared;
use plain_values::Sequence;
use privilege_types::Held;
use program_tables::Tables;
use regent_tree::{Access, Clause, Grant, Name, Param, Place, Right, StaticType, Task};
use static_types::number_at;
use std::alloc::{AllocError, Global};

fn access_of_grant(grant: Grant) -> Access
    ensures { result ≡ access_of_grant grant }
{
    match grant {
        Grant::Reads => Access::Read,
        Grant::Writes => Access::Write,
        Grant::Reduces(op) => Access::Reduce(op),
    }
}

/// The place of a field as a privilege has it.
pub fn field_number(place: usize) -> Result<u8, AllocError>
    ensures { IfOk result (λ n. n ≡ place) }
{
    match u8::try_from(place) {
        Ok(number) => Ok(number),
        Err(_) => Err(AllocError),
    }
}

fn fields_at<'a>(tables: &Tables<'a>, space: u32) -> &'a [Param]
    ensures { result.now ≡ (space_at (tree_of tables.now) space).fields }
{
    match tables.space_at(space) {
        Some(found) => found.fields.as_slice(),
        None => &[],
    }
}

fn all_places(alloc: Global, fields: &[Param]) -> Result<Vec<u8>, AllocError>
    ensures { IfOk result (λ places. places.items ≡ map (λ (p : Param). place_in fields.now p.name) fields.now) }
{
    let mut places = Vec::new(alloc);
    for field in fields {
        let place = field_number(static_types::place_in(fields, &field.name))?;
        places.push(place)?;
    }
    Ok(places)
}

fn places_of(alloc: Global, fields: &[Param], names: &[Name]) -> Result<Vec<u8>, AllocError>
    ensures { IfOk result (λ places. places.items
        ≡ map (place_in fields.now) (filter (has_param fields.now) names.now)) }
{
    let mut places = Vec::new(alloc);
    for name in names {
        if let Some(place) = program_tables::place_in(fields, name) {
            places.push(field_number(place)?)?;
        }
    }
    Ok(places)
}

/// The places of the fields that a clause names; without names it is all of the field space.
fn fields_named(
    alloc: Global,
    tables: &Tables,
    space: u32,
    names: &Option<Sequence<Name>>,
) -> Result<Vec<u8>, AllocError>
    ensures { IfOk result (λ places. places.items ≡ fields_named (tree_of tables.now) space names.now) }
{
    let fields = fields_at(tables, space);
    match names {
        None => all_places(alloc, fields),
        Some(names) => places_of(alloc, fields, names.as_slice()),
    }
}

/// What a grant gives on these fields of a region.
fn add_grant(
    rights: &mut Vec<Right>,
    region: u32,
    fields: &[u8],
    grant: Grant,
) -> Result<(), AllocError>
    ensures { OnOk result (rights.new.items ≡ rights.old.items ++ granted_on region fields.now grant) }
{
    for field in fields {
        rights.push(Right {
            region,
            field: *field,
            access: access_of_grant(grant),
        })?;
    }
    Ok(())
}

fn add_grants(
    rights: &mut Vec<Right>,
    region: u32,
    fields: &[u8],
    grants: &[Grant],
) -> Result<(), AllocError>
    ensures { OnOk result (rights.new.items ≡ rights.old.items
        ++ flat_map (granted_on region fields.now) grants.now) }
{
    for grant in grants {
        add_grant(rights, region, fields, *grant)?;
    }
    Ok(())
}

/// Where privileges are declared: parameters with their types.
#[derive(Clone, Copy)]
struct Declaring<'a> {
    alloc: Global,
    tables: &'a Tables<'a>,
    params: &'a [Param],
    types: &'a [StaticType],
}

impl<'a> Declaring<'a> {
    /// What grants give on a parameter, by its place.
    fn add_on(
        &self,
        rights: &mut Vec<Right>,
        region: u32,
        grants: &[Grant],
        names: &Option<Sequence<Name>>,
    ) -> Result<(), AllocError>
        ensures { OnOk result (rights.new.items ≡ rights.old.items
            ++ rights_on (tree_of self.now.tables.now) (type_at self.now.types.now region) region grants.now names.now) }
    {
        match self.types.get(region as usize) {
            Some(StaticType::Region { space, .. }) => {
                let fields = fields_named(self.alloc, self.tables, *space, names)?;
                add_grants(rights, region, &fields, grants)
            }
            _ => Ok(()),
        }
    }

    fn add_place(
        &self,
        rights: &mut Vec<Right>,
        grants: &[Grant],
        place: &Place,
    ) -> Result<(), AllocError>
        requires { AreTyped self.now }
        ensures { OnOk result (rights.new.items ≡ rights.old.items
            ++ rights_of_place (tree_of self.now.tables.now) self.now.params.now grants.now place.now) }
    {
        let region = number_at(static_types::place_in(self.params, &place.region))?;
        self.add_on(rights, region, grants, &place.fields)
    }

    fn add_places(
        &self,
        rights: &mut Vec<Right>,
        grants: &[Grant],
        places: &[Place],
    ) -> Result<(), AllocError>
        requires { AreTyped self.now }
        ensures { OnOk result (rights.new.items ≡ rights.old.items
            ++ flat_map (rights_of_place (tree_of self.now.tables.now) self.now.params.now grants.now) places.now) }
    {
        for place in places {
            self.add_place(rights, grants, place)?;
        }
        Ok(())
    }

    fn add_clause(&self, rights: &mut Vec<Right>, clause: &Clause) -> Result<(), AllocError>
        requires { AreTyped self.now }
        ensures { OnOk result (rights.new.items ≡ rights.old.items
            ++ rights_of_clause (tree_of self.now.tables.now) self.now.params.now clause.now) }
    {
        match clause {
            Clause::Grants { grants, places } => {
                self.add_places(rights, grants.as_slice(), places.as_slice())
            }
            Clause::Within { .. } | Clause::Apart { .. } => Ok(()),
        }
    }

    fn add_clauses(&self, rights: &mut Vec<Right>, clauses: &[Clause]) -> Result<(), AllocError>
        requires { AreTyped self.now }
        ensures { OnOk result (rights.new.items ≡ rights.old.items
            ++ flat_map (rights_of_clause (tree_of self.now.tables.now) self.now.params.now) clauses.now) }
    {
        for clause in clauses {
            self.add_clause(rights, clause)?;
        }
        Ok(())
    }
}

/// The privileges that a task declares, whose parameters have these types.
pub fn rights_declared(
    alloc: Global,
    declared: &Declared,
    task: &Task,
    types: &[StaticType],
) -> Result<Vec<Right>, AllocError>
    requires { types.now ≡ types_in_order (params_bound (tree_of declared.now) task.now.params) }
    ensures { IfOk result (λ rights. rights.items ≡ rights_declared (tree_of declared.now) (task_of task.now)) }
{
    let declaring = Declaring {
        alloc,
        tables: declared.tables(),
        params: task.params.as_slice(),
        types,
    };
    let mut rights = Vec::new(alloc);
    declaring.add_clauses(&mut rights, task.clauses.as_slice())?;
    Ok(rights)
}

/// Privileges as a task holds them.
pub fn held_by(alloc: Global, rights: &[Right]) -> Result<Held, AllocError>
    ensures { IfOk result (λ held. held ≡ rights.now) }
{
    let mut held = Held::new(alloc)?;
    for right in rights {
        held.add(right.region, right.field, right.access)?;
    }
    Ok(held)
}
