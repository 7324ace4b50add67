//! Calls: which task is called, what its parameters are there, and its result.

ghost use Rattle.std.specs.Prelude.{◌≡◌, IfOk, map};
ghost use Rattle.regent_tree.specs.Plain.{expressions_in};
ghost use Rattle.regent_tree.specs.PlainProgram.{tree_of};
ghost use Rattle.regent_tree.specs.StaticTypes.{task_named};
ghost use Rattle.regent_tree.specs.Typing.{params_at, put_in, result_type};
ghost use Rattle.compile_types.specs.Here.{where_of};

use crate::here::Here;
use crate::typing::types_of;
use program_tables::Tables;
use regent_tree::{Expr, Name, Reach, StaticType, Task, TypeTerm};
use static_types::{Looking, put_in, said_params, type_said};
use std::alloc::{AllocError, Global};

/// In a result's type no name stands for a region.
struct Nowhere;

impl Looking for Nowhere {
    ghost use Rattle.std.specs.Prelude.{None};

    ghost looks = { λ a n. None };

    fn look(&self, _name: &Name) -> Result<Reach, AllocError> {
        Ok(None)
    }
}

/// The type of a task's result.
pub fn result_type(
    alloc: Global,
    tables: &Tables,
    term: &Option<TypeTerm>,
) -> Result<StaticType, AllocError>
    ensures { IfOk result (λ t. t ≡ result_type (tree_of tables.now) term.now) }
{
    match term {
        Some(term) => type_said(alloc, tables, &Nowhere, 0, term),
        None => Ok(StaticType::Nothing),
    }
}

/// The type of a called task's result.
pub fn result_of(here: &Here, name: &Name) -> Result<StaticType, AllocError>
    ensures { IfOk result (λ t. t ≡ result_type (where_of here.now).tree (task_named (where_of here.now).tree name.now).result) }
{
    match here.tables().task(name) {
        Some(task) => result_type(here.alloc(), here.tables(), &task.result),
        None => Ok(StaticType::Nothing),
    }
}

/// Types read with the types of a call's arguments.
fn all_put_in(
    alloc: Global,
    types: &[StaticType],
    wanted: &[StaticType],
) -> Result<Vec<StaticType>, AllocError>
    ensures { IfOk result (λ all. all.items ≡ map (put_in types.now) wanted.now) }
{
    let mut all = Vec::new(alloc);
    for t in wanted {
        let put = put_in(alloc, types, t)?;
        all.push(put)?;
    }
    Ok(all)
}

/// The types of a called task's parameters, with these arguments.
pub fn params_at(here: &Here, name: &Name, args: &[Expr]) -> Result<Vec<StaticType>, AllocError>
    ensures { IfOk result (λ types. types.items ≡ params_at (where_of here.now).tree (where_of here.now).scope
        (task_named (where_of here.now).tree name.now) (expressions_in args.now)) }
{
    let Some(task) = here.tables().task(name) else {
        return Ok(Vec::new(here.alloc()));
    };
    let wanted = said_params(here.alloc(), here.tables(), task.params.as_slice())?;
    let types = types_of(here, args)?;
    all_put_in(here.alloc(), &types, &wanted)
}
