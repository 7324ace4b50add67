//! Single instructions, and the few behind an operand.

ghost use Rattle.std.specs.Prelude.{◌≡◌, IfOk, OnOk, map};
ghost use Rattle.regent_tree.specs.Plain.{steps_in};
ghost use Rattle.regent_tree.specs.StaticTypes.{field_place};
ghost use Rattle.regent_tree.specs.Accesses.{space_in};
ghost use Rattle.regent_tree.specs.Typing.{are_pointers, position_of, positions, reaches_of};
ghost use Rattle.code_rules.specs.Emitted.{emitted};
ghost use Rattle.compile_types.specs.Here.{where_of};
ghost use Rattle.code_rules.specs.Instructions.{as_number_code, cast_code, comparing, computing, converted_code, element_code, field_code, kept_code, load_code, one, operand_code, operating, place_of_task, sign_code, signs_code, slot_after, standing_code, width_code};

use crate::body::Body;
use compile_types::{Here, positions, stays, width_computed, width_of_type};
use regent_tree::{
    Arithmetic, Comparison, Name, NumberTerm, Operator, Sign, StaticType, Step, Width,
};
use static_types::{is_pointer, number_at, place_in};
use std::alloc::AllocError;
use task_code::Instr;

/// One instruction.
pub fn one(here: &Here, body: &mut Body, instr: Instr) -> Result<(), AllocError>
    ensures { OnOk result (body.new ≡ emitted body.old (one (where_of here.now) instr)) }
{
    body.add(instr, here.line)
}

/// A pointer stands for its point number.
pub fn standing(here: &Here, body: &mut Body, t: &StaticType) -> Result<(), AllocError>
    ensures { OnOk result (body.new ≡ emitted body.old (standing_code (where_of here.now) t.now)) }
{
    match t {
        StaticType::Pointer { .. } => one(here, body, Instr::Point),
        _ => Ok(()),
    }
}

/// An operand, which may stay a pointer.
pub fn operand(here: &Here, body: &mut Body, stays: bool, t: &StaticType) -> Result<(), AllocError>
    ensures { OnOk result (body.new ≡ emitted body.old (operand_code (where_of here.now) stays t.now)) }
{
    if stays {
        Ok(())
    } else {
        standing(here, body, t)
    }
}

/// A number where an integer is wanted. One that has that width already stays as it is.
fn fitted(here: &Here, body: &mut Body, from: &StaticType, width: Width) -> Result<(), AllocError>
    ensures { OnOk result (body.new ≡ emitted body.old (width_code (where_of here.now) from.now width)) }
{
    match (from, width) {
        (StaticType::Integer(Width::W32), Width::W32)
        | (StaticType::Integer(Width::W64), Width::W64) => Ok(()),
        _ => one(here, body, Instr::Wrap(width)),
    }
}

/// A value of a type where another type is wanted.
pub fn converted(
    here: &Here,
    body: &mut Body,
    from: &StaticType,
    to: &StaticType,
) -> Result<(), AllocError>
    ensures { OnOk result (body.new ≡ emitted body.old (converted_code (where_of here.now) from.now to.now)) }
{
    match to {
        StaticType::Integer(width) => fitted(here, body, from, *width),
        StaticType::Index(_) => standing(here, body, from),
        StaticType::Pointer { regions, .. } => {
            let moved = positions(here.alloc(), here.facts, from, regions.as_slice())?;
            one(here, body, Instr::Move(moved))
        }
        _ => Ok(()),
    }
}

fn computing(operator: Arithmetic, width: Width) -> Instr
    ensures { result ≡ computing operator width }
{
    match operator {
        Arithmetic::Add => Instr::Add(width),
        Arithmetic::Subtract => Instr::Sub(width),
        Arithmetic::Multiply => Instr::Mul(width),
        Arithmetic::Divide => Instr::Div(width),
        Arithmetic::Remainder => Instr::Rem(width),
    }
}

fn comparing(operator: Comparison, pointers: bool) -> Instr
    ensures { result ≡ comparing operator pointers }
{
    match operator {
        Comparison::Equal if pointers => Instr::PtrEq,
        Comparison::Equal => Instr::Eq,
        Comparison::NotEqual if pointers => Instr::PtrNe,
        Comparison::NotEqual => Instr::Ne,
        Comparison::Less => Instr::Lt,
        Comparison::AtMost => Instr::Le,
        Comparison::Greater => Instr::Gt,
        Comparison::AtLeast => Instr::Ge,
    }
}

/// Whether two types are both pointers'.
pub fn are_pointers(left: &StaticType, right: &StaticType) -> bool
    ensures { result ≡ are_pointers left.now right.now }
{
    is_pointer(left) && is_pointer(right)
}

/// The instruction of an operator that evaluates both operands.
pub fn operating(operator: Operator, left: &StaticType, right: &StaticType) -> Instr
    ensures { result ≡ operating operator left.now right.now }
{
    match operator {
        Operator::Compute(arithmetic) => {
            computing(arithmetic, width_computed(arithmetic, left, right))
        }
        Operator::Compare(comparison) => comparing(comparison, are_pointers(left, right)),
        Operator::And | Operator::Or => Instr::Drop,
    }
}

fn sign(here: &Here, body: &mut Body, t: &StaticType, sign: Sign) -> Result<(), AllocError>
    ensures { OnOk result (body.new ≡ emitted body.old (sign_code (where_of here.now) t.now sign)) }
{
    match sign {
        Sign::Not => one(here, body, Instr::Not),
        Sign::Minus => one(here, body, Instr::Neg(width_of_type(t))),
    }
}

/// Prefixes, the innermost first.
pub fn all_signs(
    here: &Here,
    body: &mut Body,
    t: &StaticType,
    signs: &[Sign],
) -> Result<(), AllocError>
    ensures { OnOk result (body.new ≡ emitted body.old (signs_code (where_of here.now) t.now signs.now)) }
{
    let count = signs.len();
    for after in 0..count {
        sign(here, body, t, signs[count - 1 - after])?;
    }
    Ok(())
}

/// A conversion to a number type.
pub fn as_number(here: &Here, body: &mut Body, to: NumberTerm) -> Result<(), AllocError>
    ensures { OnOk result (body.new ≡ emitted body.old (as_number_code (where_of here.now) to)) }
{
    match to {
        NumberTerm::Int32 => one(here, body, Instr::Wrap(Width::W32)),
        NumberTerm::Int64 => one(here, body, Instr::Wrap(Width::W64)),
        NumberTerm::Index(_) => Ok(()),
    }
}

/// A cast of a value of a type to a pointer type.
pub fn cast(here: &Here, body: &mut Body, t: &StaticType, to: &StaticType) -> Result<(), AllocError>
    ensures { OnOk result (body.new ≡ emitted body.old (cast_code (where_of here.now) t.now to.now)) }
{
    let slots = here.slots_of(0, to)?;
    let instr = match t {
        StaticType::Pointer { .. } => Instr::CastPtr(slots),
        _ => Instr::Cast(slots),
    };
    one(here, body, instr)
}

/// The field space of a pointer's or a region's type.
pub fn space_in(t: &StaticType) -> u32
    ensures { result ≡ space_in t.now }
{
    match t {
        StaticType::Pointer { space, .. } | StaticType::Region { space, .. } => *space,
        _ => 0,
    }
}

/// The place of a field in a field space. One that passes 8 bits counts as a want of memory.
pub fn field_place(here: &Here, space: u32, field: &Name) -> Result<u8, AllocError>
    ensures { IfOk result (λ p. p ≡ field_place (where_of here.now).tree space field.now) }
{
    let Some(found) = here.tables().space_at(space) else {
        return Ok(0);
    };
    match u8::try_from(place_in(found.fields.as_slice(), field)) {
        Ok(place) => Ok(place),
        Err(_) => Err(AllocError),
    }
}

/// `x.f` of a thing of a type, with its region's slot or its own.
pub fn field(
    here: &Here,
    body: &mut Body,
    t: &StaticType,
    slot: u32,
    name: &Name,
) -> Result<(), AllocError>
    ensures { OnOk result (body.new ≡ emitted body.old (field_code (where_of here.now) t.now slot name.now)) }
{
    match t {
        StaticType::Partition { .. } => one(here, body, Instr::Colors(slot)),
        _ => {
            let slots = here.slots_of(slot, t)?;
            let place = field_place(here, space_in(t), name)?;
            one(here, body, Instr::Read(slots, place))
        }
    }
}

/// `x[e]` of a thing of a type, by its slot.
pub fn element(here: &Here, body: &mut Body, t: &StaticType, slot: u32) -> Result<(), AllocError>
    ensures { OnOk result (body.new ≡ emitted body.old (element_code (where_of here.now) t.now slot)) }
{
    match t {
        StaticType::Partition { .. } => one(here, body, Instr::Child(slot)),
        _ => one(here, body, Instr::At(slot)),
    }
}

/// A child with steps behind it is put into a slot.
pub fn keep(
    here: &Here,
    body: &mut Body,
    depth: u32,
    t: &StaticType,
    rest: &[Step],
) -> Result<(), AllocError>
    ensures { OnOk result (body.new ≡ emitted body.old (kept_code (where_of here.now) depth t.now (steps_in rest.now))) }
{
    match t {
        StaticType::Partition { .. } if !rest.is_empty() => {
            one(here, body, Instr::Store(here.spare(depth)?))
        }
        _ => Ok(()),
    }
}

/// Where the region of an element is.
pub fn slot_after(here: &Here, depth: u32, t: &StaticType, slot: u32) -> Result<u32, AllocError>
    ensures { IfOk result (λ s. s ≡ slot_after (where_of here.now) depth t.now slot) }
{
    match t {
        StaticType::Partition { .. } => here.spare(depth),
        _ => Ok(slot),
    }
}

/// A variable before the steps of an access.
pub fn load(
    here: &Here,
    body: &mut Body,
    t: &StaticType,
    slot: u32,
    steps: &[Step],
) -> Result<(), AllocError>
    ensures { OnOk result (body.new ≡ emitted body.old (load_code (where_of here.now) t.now slot (steps_in steps.now))) }
{
    if !steps.is_empty() && stays(t) {
        return Ok(());
    }
    one(here, body, Instr::Load(slot))
}
