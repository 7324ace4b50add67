//! The code of initializers. The value of a new variable is left on the stack.

ghost use Rattle.std.specs.Option.{option_map};
ghost use Rattle.std.specs.Prelude.{◌≡◌, IfOk, OnOk};
ghost use Rattle.regent_tree.specs.Accesses.{space_in};
ghost use Rattle.regent_tree.specs.Plain.{expression_of, initializer_of};
ghost use Rattle.regent_tree.specs.Typing.{parent_of};
ghost use Rattle.code_rules.specs.Emitted.{emitted};
ghost use Rattle.code_rules.specs.Initializers.{declared_code, field_of, initialized_code, initializer_code, zero_kept};
ghost use Rattle.code_rules.specs.Slots.{bound, slot_bound, slot_named};
ghost use Rattle.compile_types.specs.Here.{where_of};

use crate::beginnings::plain;
use compile_expressions::{Body, converted, expression, field_place, one, space_in};
use compile_types::Here;
use regent_tree::{Expr, Init, Name, StaticType, TypeTerm};
use static_types::is_pointer;
use std::alloc::AllocError;
use task_code::Instr;

/// The field space of the region of a name.
fn space_of_name(here: &Here, region: &Name) -> u32
    ensures { result ≡ space_in (bound (where_of here.now) region.now).static_type }
{
    match here.names.bound_to(region) {
        Some(bound) => space_in(&bound.static_type),
        None => 0,
    }
}

/// The place of a field of the region of a name.
fn field_of(here: &Here, region: &Name, field: &Name) -> Result<u8, AllocError>
    ensures { IfOk result (λ p. p ≡ field_of (where_of here.now) region.now field.now) }
{
    field_place(here, space_of_name(here, region), field)
}

/// The parent of a partition of a type.
pub fn parent_of(t: &StaticType) -> u32
    ensures { result ≡ parent_of t.now }
{
    match t {
        StaticType::Partition { parent, .. } => *parent,
        _ => 0,
    }
}

/// The slot of the parent of the partition of a name.
fn slot_of_parent(here: &Here, p: &Name) -> Result<u32, AllocError>
    ensures { IfOk result (λ s. s ≡ slot_bound (where_of here.now) (parent_of (bound (where_of here.now) p.now).static_type)) }
{
    match here.names.bound_to(p) {
        Some(bound) => here.slot_bound(parent_of(&bound.static_type)),
        None => here.slot_bound(0),
    }
}

/// A variable that begins with an expression; one of a written type is converted to it, but for a partition.
fn declared(
    here: &Here,
    body: &mut Body,
    term: &Option<TypeTerm>,
    t: &StaticType,
    e: &Expr,
) -> Result<(), AllocError>
    ensures { OnOk result (body.new ≡ emitted body.old (declared_code (where_of here.now) term.now t.now (expression_of e.now))) }
{
    match (term, t) {
        (None, _) | (Some(_), StaticType::Partition { .. }) => plain(here, body, t, e),
        (Some(_), _) => {
            let from = expression(here, body, 0, e)?;
            converted(here, body, &from, t)
        }
    }
}

/// The slots of the region, the partition and the region with a field by which a partition is made.
#[derive(Clone, Copy)]
struct Sources {
    parent: u32,
    partition: u32,
    region: u32,
    field: u8,
}

fn sources_of(
    here: &Here,
    parent: &Name,
    partition: &Name,
    region: &Name,
    field: &Name,
) -> Result<Sources, AllocError>
    ensures parent { IfOk result (λ s. s.parent ≡ slot_named (where_of here.now) parent.now) }
    ensures partition { IfOk result (λ s. s.partition ≡ slot_named (where_of here.now) partition.now) }
    ensures region { IfOk result (λ s. s.region ≡ slot_named (where_of here.now) region.now) }
    ensures field { IfOk result (λ s. s.field ≡ field_of (where_of here.now) region.now field.now) }
{
    Ok(Sources {
        parent: here.slot_named(parent)?,
        partition: here.slot_named(partition)?,
        region: here.slot_named(region)?,
        field: field_of(here, region, field)?,
    })
}

/// The slots of two partitions, and of the parent of the first.
fn two_partitions(here: &Here, p: &Name, q: &Name) -> Result<(u32, u32, u32), AllocError>
    ensures { IfOk result (λ s. s ≡ (
      slot_named (where_of here.now) p.now,
      slot_named (where_of here.now) q.now,
      slot_bound (where_of here.now) (parent_of (bound (where_of here.now) p.now).static_type),
    )) }
{
    Ok((
        here.slot_named(p)?,
        here.slot_named(q)?,
        slot_of_parent(here, p)?,
    ))
}

fn initialized(
    here: &Here,
    body: &mut Body,
    term: &Option<TypeTerm>,
    t: &StaticType,
    init: &Init,
) -> Result<(), AllocError>
    ensures { OnOk result (body.new ≡ emitted body.old (initialized_code (where_of here.now) term.now t.now (initializer_of init.now))) }
{
    match init {
        Init::Region { space, fields } => {
            expression(here, body, 0, space)?;
            let place = here.tables().place_of_space(&fields.name);
            one(here, body, Instr::NewRoot(place))
        }
        Init::Equal { region, colours } => {
            expression(here, body, 0, colours)?;
            one(here, body, Instr::Equal(here.slot_named(region)?))
        }
        Init::ByField {
            region,
            field,
            colours,
        } => {
            expression(here, body, 0, colours)?;
            let slot = here.slot_named(region)?;
            one(
                here,
                body,
                Instr::ByField(slot, field_of(here, region, field)?),
            )
        }
        Init::Image {
            parent,
            partition,
            region,
            field,
        } => {
            let s = sources_of(here, parent, partition, region, field)?;
            let image = Instr::Image(s.parent, s.partition, s.region, s.field);
            one(here, body, image)
        }
        Init::Preimage {
            parent,
            partition,
            region,
            field,
        } => {
            let s = sources_of(here, parent, partition, region, field)?;
            let preimage = Instr::Preimage(s.parent, s.partition, s.region, s.field);
            one(here, body, preimage)
        }
        Init::Both { p, q } => {
            let (p, q, parent) = two_partitions(here, p, q)?;
            one(here, body, Instr::Meet(p, q, parent))
        }
        Init::Either { p, q } => {
            let (p, q, parent) = two_partitions(here, p, q)?;
            one(here, body, Instr::Join(p, q, parent))
        }
        Init::Plain(e) => declared(here, body, term, t, e),
    }
}

/// What a variable of a type is without an initializer: 0, false or null.
fn zero_kept(t: &StaticType) -> i64
    ensures { result ≡ zero_kept t.now }
{
    if is_pointer(t) { -1 } else { 0 }
}

/// The value of a new variable, whose type is given beside the term that is written.
pub fn initializer(
    here: &Here,
    body: &mut Body,
    term: &Option<TypeTerm>,
    t: &StaticType,
    init: &Option<Init>,
) -> Result<(), AllocError>
    ensures { OnOk result (body.new ≡ emitted body.old
        (initializer_code (where_of here.now) term.now t.now (option_map initializer_of init.now))) }
{
    match init {
        None => one(here, body, Instr::Num(zero_kept(t))),
        Some(init) => initialized(here, body, term, t, init),
    }
}
