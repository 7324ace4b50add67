//! The code of `fill`.

ghost use Rattle.std.specs.Prelude.{◌≡◌, [], ◌∷◌, IfOk, OnOk};
ghost use Rattle.regent_tree.specs.Accesses.{args_in};
ghost use Rattle.regent_tree.specs.Plain.{expression_of};
ghost use Rattle.regent_tree.specs.Syntax.{fill_form};
ghost use Rattle.code_rules.specs.Assignments.{fill_code};
ghost use Rattle.code_rules.specs.Emitted.{emitted};
ghost use Rattle.code_rules.specs.Expressions.{expr_code};
ghost use Rattle.code_rules.specs.Instructions.{one};
ghost use Rattle.code_rules.specs.Pieces.{◌⨟◌};
ghost use Rattle.code_rules.specs.Slots.{spare, typed};
ghost use Rattle.task_code.specs.declared.instr.Instr.TheVariants as instr;
ghost use Rattle.code_rules.specs.Statements.{form_code};
ghost use Rattle.compile_types.specs.Here.{where_of};

use crate::fields::width_of_field;
use compile_expressions::{Body, converted, expression, field_place, one, space_in};
use compile_types::{Here, field_type, type_of_name};
use regent_tree::{Expr, Name, Reach, StaticType};
use std::alloc::AllocError;
use task_code::Instr;

/// The arguments of a pointer's or a region's field space.
fn args_in(t: &StaticType) -> &[Reach]
    ensures { result.now ≡ args_in t.now }
{
    match t {
        StaticType::Pointer { args, .. } | StaticType::Region { args, .. } => args.as_slice(),
        _ => &[],
    }
}

/// The value that was put aside, which is of a type, goes to a field of the region of a type that stands in a
/// slot.
fn fill_field(
    here: &Here,
    body: &mut Body,
    from: &StaticType,
    t: &StaticType,
    slot: u32,
    field: &Name,
) -> Result<(), AllocError>
    ensures { OnOk result (body.new ≡ emitted body.old (fill_code (where_of here.now) from.now t.now slot (field.now ∷ []))) }
{
    let space = space_in(t);
    let place = field_place(here, space, field)?;
    let width = width_of_field(here, space, place);
    one(here, body, Instr::Load(here.spare(0)?))?;
    let to = field_type(here, space, args_in(t), field)?;
    converted(here, body, from, &to)?;
    one(here, body, Instr::Fill(slot, place, width))
}

/// The same for each of some fields.
fn fill_fields(
    here: &Here,
    body: &mut Body,
    from: &StaticType,
    t: &StaticType,
    slot: u32,
    fields: &[Name],
) -> Result<(), AllocError>
    ensures { OnOk result (body.new ≡ emitted body.old (fill_code (where_of here.now) from.now t.now slot fields.now)) }
{
    for field in fields {
        fill_field(here, body, from, t, slot, field)?;
    }
    Ok(())
}

/// A value is put aside. Its type is told.
fn put_aside(here: &Here, body: &mut Body, value: &Expr) -> Result<StaticType, AllocError>
    ensures typed { IfOk result (λ t. t ≡ typed (where_of here.now) (expression_of value.now)) }
    ensures code { OnOk result (body.new ≡ emitted body.old (expr_code (where_of here.now) 0 (expression_of value.now)
        ⨟ one (where_of here.now) (instr.Store (spare (where_of here.now) 0)))) }
{
    let from = expression(here, body, 0, value)?;
    one(here, body, Instr::Store(here.spare(0)?))?;
    Ok(from)
}

/// `fill(r.fields, e)`: each field is filled with the value that was put aside.
pub fn fill(
    here: &Here,
    body: &mut Body,
    region: &Name,
    fields: &[Name],
    value: &Expr,
) -> Result<(), AllocError>
    ensures { OnOk result (body.new ≡ emitted body.old
        (form_code (where_of here.now) (fill_form region.now fields.now (expression_of value.now)))) }
{
    let from = put_aside(here, body, value)?;
    let t = type_of_name(here, region)?;
    let slot = here.slot_named(region)?;
    fill_fields(here, body, &from, &t, slot, fields)
}
