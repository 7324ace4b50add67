//! The code of assignments and reductions: the value stands on the stack, and goes to its target.

ghost use Rattle.std.specs.Prelude.{◌≡◌, [], ◌∷◌, ◌++◌, MatchOption, OnOk};
ghost use Rattle.regent_tree.specs.Plain.{expression_of, steps_in};
ghost use Rattle.regent_tree.specs.Syntax.{access_expr};
ghost use Rattle.regent_tree.specs.Typing.{stepped_type};
ghost use Rattle.code_rules.specs.Assignments.{put_code, right_code, slot_behind, target_code};
ghost use Rattle.code_rules.specs.Emitted.{emitted};
ghost use Rattle.code_rules.specs.Expressions.{expr_code};
ghost use Rattle.code_rules.specs.Pieces.{◌⨟◌};
ghost use Rattle.code_rules.specs.Slots.{bound, own_slot};
ghost use Rattle.code_rules.specs.Statements.{form_code};
ghost use Rattle.compile_types.specs.Here.{where_of};
ghost use Rattle.compile_forms.specs.Targets.{field_in, held_code};

use crate::fields::width_of_field;
use crate::folds::set;
use compile_expressions::{
    Body, Reached, access, converted, expression, field_place, one, space_in,
};
use compile_types::{Here, access_type, type_of_name};
use plain_values::Sequence;
use regent_tree::{Expr, How, Name, StaticType, Step};
use std::alloc::AllocError;
use task_code::Instr;

/// The right side: it becomes of the target's type, but not for a reduction.
pub fn right(
    here: &Here,
    body: &mut Body,
    name: &Name,
    steps: &[Step],
    how: How,
    value: &Expr,
) -> Result<(), AllocError>
    ensures { OnOk result (body.new ≡ emitted body.old
        (right_code (where_of here.now) name.now (steps_in steps.now) how (expression_of value.now))) }
{
    let from = expression(here, body, 0, value)?;
    if how != How::Set {
        return Ok(());
    }
    let to = access_type(here, name, steps)?;
    converted(here, body, &from, &to)
}

/// The value below a pointer of a type goes to a field of what it aims at.
fn put(
    here: &Here,
    body: &mut Body,
    t: &StaticType,
    slot: u32,
    field: &Name,
    how: How,
) -> Result<(), AllocError>
    ensures { OnOk result (body.new ≡ emitted body.old (put_code (where_of here.now) t.now slot field.now how)) }
{
    let space = space_in(t);
    let place = field_place(here, space, field)?;
    let width = width_of_field(here, space, place);
    let slots = here.slots_of(slot, t)?;
    let instr = match how {
        How::Set => Instr::Write(slots, place, width),
        How::Reduce(op) => Instr::Reduce(slots, place, op, width),
    };
    one(here, body, instr)
}

/// The value goes to a field of what an access comes to.
fn put_at(
    here: &Here,
    body: &mut Body,
    name: &Name,
    front: &[Step],
    last: &Step,
    how: How,
) -> Result<(), AllocError>
    ensures { OnOk result (body.new ≡ emitted body.old
        (held_code (where_of here.now) name.now (steps_in front.now) (field_in last.now) how)) }
{
    let Reached {
        static_type,
        slot,
        ..
    } = access(here, body, 0, name, front)?;
    match last {
        Step::Field(field) => put(here, body, &static_type, slot, field, how),
        Step::At(_) => put(
            here,
            body,
            &static_type,
            slot,
            &Sequence::new(here.alloc()),
            how,
        ),
    }
}

/// The last step of an access, and those before it.
fn split_last(steps: &[Step]) -> Option<(&Step, &[Step])>
    ensures { MatchOption result (steps.now ≡ []) (λ p. steps.now ≡ p.1.now ++ p.0.now ∷ []) }
{
    steps.split_last()
}

/// The value on the stack goes to its target.
pub fn target(
    here: &Here,
    body: &mut Body,
    name: &Name,
    steps: &[Step],
    how: How,
) -> Result<(), AllocError>
    ensures { OnOk result (body.new ≡ emitted body.old
        (target_code (where_of here.now) name.now (steps_in steps.now) how)) }
{
    match split_last(steps) {
        Some((last, front)) => put_at(here, body, name, front, last, how),
        None => {
            let t = type_of_name(here, name)?;
            let slot = here.slot_named(name)?;
            set(here, body, slot, how, &t)
        }
    }
}
