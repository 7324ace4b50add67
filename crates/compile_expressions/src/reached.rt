//! What an access has reached, and what a step reaches from there.

ghost use Rattle.std.specs.Prelude.{◌≡◌, IfOk, suc};
ghost use Rattle.regent_tree.specs.Plain.{expression_of, steps_in};
ghost use Rattle.regent_tree.specs.Syntax.{field_step};
ghost use Rattle.regent_tree.specs.Typing.{type_of_element};
ghost use Rattle.code_rules.specs.Instructions.{slot_after};
ghost use Rattle.compile_types.specs.Here.{where_of};
ghost use Rattle.compile_expressions.specs.Leads.{Leads};

use crate::body::Body;
use crate::single::{field, slot_after};
use compile_types::{Here, type_of_element, type_of_field};
use regent_tree::{Expr, Name, StaticType, Step};
use std::alloc::AllocError;

/// What the steps of an access have reached: its type, the slot of its region or of itself, and how many
/// children are in use.
#[derive(Drop)]
pub struct Reached {
    pub static_type: StaticType,
    pub slot: u32,
    pub depth: u32,
}

/// A field that is taken of what was reached.
pub fn field_taken(
    here: &Here,
    body: &mut Body,
    from: Reached,
    name: &Name,
    rest: &[Step],
) -> Result<Reached, AllocError>
    ensures { IfOk result (λ r. Leads (where_of here.now) body.old body.new from r (field_step name.now (steps_in rest.now)) (steps_in rest.now)) }
{
    field(here, body, &from.static_type, from.slot, name)?;
    let static_type = type_of_field(here, &from.static_type, name)?;
    Ok(Reached {
        static_type,
        slot: 0,
        depth: from.depth,
    })
}

/// What an element is.
pub fn reached_element(here: &Here, from: &Reached, e: &Expr) -> Result<Reached, AllocError>
    ensures typed { IfOk result (λ r. r.static_type ≡ type_of_element (where_of here.now).scope from.now.static_type (expression_of e.now)) }
    ensures slot { IfOk result (λ r. r.slot ≡ slot_after (where_of here.now) from.now.depth from.now.static_type from.now.slot) }
    ensures depth { IfOk result (λ r. r.depth ≡ suc from.now.depth) }
{
    let Some(depth) = from.depth.checked_add(1) else {
        return Err(AllocError);
    };
    Ok(Reached {
        static_type: type_of_element(here, &from.static_type, e)?,
        slot: slot_after(here, from.depth, &from.static_type, from.slot)?,
        depth,
    })
}
