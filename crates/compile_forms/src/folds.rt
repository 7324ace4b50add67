//! Values that go into a variable.

ghost use Rattle.std.specs.Prelude.{◌≡◌, OnOk};
ghost use Rattle.task_code.specs.declared.instr.Instr.TheVariants as instr;
ghost use Rattle.code_rules.specs.Assignments.{fold_code, set_code, smaller};
ghost use Rattle.code_rules.specs.Emitted.{emitted};
ghost use Rattle.code_rules.specs.Instructions.{one};
ghost use Rattle.code_rules.specs.Pieces.{over, ◌⨟◌};
ghost use Rattle.code_rules.specs.Slots.{spare};
ghost use Rattle.compile_types.specs.Here.{where_of};

use compile_expressions::{Body, one};
use compile_types::{Here, width_of_type};
use lane_kernels::{Op, Width};
use regent_tree::{How, StaticType};
use std::alloc::AllocError;
use task_code::Instr;

/// A number that is computed from the value on the stack and that of a variable goes into the variable.
fn computed(
    here: &Here,
    body: &mut Body,
    slot: u32,
    width: Width,
    operator: Instr,
) -> Result<(), AllocError>
    ensures { OnOk result (body.new ≡ emitted body.old (one (where_of here.now) (instr.Wrap width)
        ⨟ one (where_of here.now) (instr.Load slot) ⨟ one (where_of here.now) operator ⨟ one (where_of here.now) (instr.Store slot))) }
{
    one(here, body, Instr::Wrap(width))?;
    one(here, body, Instr::Load(slot))?;
    one(here, body, operator)?;
    one(here, body, Instr::Store(slot))
}

/// Which of two numbers is taken: the first one on the stack, where it is the greater, or else the smaller.
fn smaller(op: Op) -> Instr
    ensures { result ≡ smaller op }
{
    match op {
        Op::Greatest => Instr::Gt,
        _ => Instr::Lt,
    }
}

/// Behind a test, the number that was put aside goes into a variable where the test is true.
fn taken(here: &Here, body: &mut Body, aside: u32, slot: u32) -> Result<(), AllocError>
    ensures { OnOk result (body.new ≡ emitted body.old (over instr.JumpIfNot (where_of here.now).line
        (one (where_of here.now) (instr.Load aside) ⨟ one (where_of here.now) (instr.Store slot)))) }
{
    let head = body.open(here.line)?;
    one(here, body, Instr::Load(aside))?;
    one(here, body, Instr::Store(slot))?;
    body.put(head, Instr::JumpIfNot(body.place()?), here.line);
    Ok(())
}

/// The number on the stack is put aside, and compared with that of a variable.
fn compared(
    here: &Here,
    body: &mut Body,
    aside: u32,
    slot: u32,
    comparison: Instr,
) -> Result<(), AllocError>
    ensures { OnOk result (body.new ≡ emitted body.old (one (where_of here.now) (instr.Store aside)
        ⨟ one (where_of here.now) (instr.Load aside) ⨟ one (where_of here.now) (instr.Load slot) ⨟ one (where_of here.now) comparison)) }
{
    one(here, body, Instr::Store(aside))?;
    one(here, body, Instr::Load(aside))?;
    one(here, body, Instr::Load(slot))?;
    one(here, body, comparison)
}

/// A number is folded into a variable.
fn fold(here: &Here, body: &mut Body, slot: u32, op: Op, width: Width) -> Result<(), AllocError>
    ensures { OnOk result (body.new ≡ emitted body.old (fold_code (where_of here.now) slot op width)) }
{
    match op {
        Op::Sum => computed(here, body, slot, width, Instr::Add(width)),
        Op::Product => computed(here, body, slot, width, Instr::Mul(width)),
        Op::Least | Op::Greatest => {
            let aside = here.spare(0)?;
            one(here, body, Instr::Wrap(width))?;
            compared(here, body, aside, slot, smaller(op))?;
            taken(here, body, aside, slot)
        }
    }
}

/// The value on the stack goes into a variable of a type.
pub fn set(
    here: &Here,
    body: &mut Body,
    slot: u32,
    how: How,
    t: &StaticType,
) -> Result<(), AllocError>
    ensures { OnOk result (body.new ≡ emitted body.old (set_code (where_of here.now) slot how t.now)) }
{
    match how {
        How::Set => one(here, body, Instr::Store(slot)),
        How::Reduce(op) => fold(here, body, slot, op, width_of_type(t)),
    }
}
