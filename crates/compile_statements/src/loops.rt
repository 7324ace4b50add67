//! The heads of loops.

ghost use Rattle.std.specs.Prelude.{◌≡◌, IfOk, OnOk, length};
ghost use Rattle.regent_tree.specs.Plain.{expression_of};
ghost use Rattle.regent_tree.specs.Typing.{arithmetic_type, taken_from};
ghost use Rattle.task_code.specs.declared.instr.Instr.TheVariants as instr;
ghost use Rattle.check_rules.specs.types.Sorts.{is_space};
ghost use Rattle.code_rules.specs.Emitted.{added, emitted, opened, tested};
ghost use Rattle.code_rules.specs.Expressions.{expr_code};
ghost use Rattle.code_rules.specs.Initializers.{new_place};
ghost use Rattle.code_rules.specs.Instructions.{one};
ghost use Rattle.code_rules.specs.Pieces.{◌⨟◌};
ghost use Rattle.code_rules.specs.Slots.{beside, counter, slot, typed};
ghost use Rattle.compile_types.specs.Here.{where_of};
ghost use Rattle.compile_statements.specs.Loops.{counter_code, domain_code, head_instr, number_head, numbers_code, point_head};

use compile_expressions::{Body, expression, one};
use compile_types::Here;
use regent_tree::{Expr, StaticType};
use static_types::{arithmetic_type, is_pointer, is_space, pointer_into};
use std::alloc::{AllocError, Global};
use task_code::Instr;

/// The head of a loop over numbers, or over the points of a space or a region, by its slots.
#[derive(Clone, Copy)]
pub enum Head {
    Number {
        counter: u32,
        limit: u32,
        variable: u32,
    },
    Point {
        domain: u32,
        counter: u32,
        variable: u32,
        pointers: bool,
    },
}

impl Head {
    /// The instruction, by the place behind the loop.
    pub fn instr(self, past: u32) -> Instr
        ensures { result ≡ head_instr self past }
    {
        match self {
            Head::Number {
                counter,
                limit,
                variable,
            } => Instr::NextNumber(counter, limit, variable, past),
            Head::Point {
                domain,
                counter,
                variable,
                pointers,
            } => Instr::NextPoint(domain, counter, variable, pointers, past),
        }
    }
}

/// What a loop takes: the type of its variable, and its head; and whether it goes over an index space.
#[derive(Drop)]
pub struct Taken {
    pub static_type: StaticType,
    pub head: Head,
    pub over_space: bool,
}

/// What a loop over a region or an index space takes: pointers into it, or its indices.
fn taken_from(alloc: Global, t: &StaticType) -> Result<StaticType, AllocError>
    ensures { IfOk result (λ u. u ≡ taken_from t.now) }
{
    match t {
        StaticType::Region {
            kind,
            space,
            args,
            term,
        } => pointer_into(alloc, *kind, *space, args, *term),
        StaticType::Ispace(kind) => Ok(StaticType::Index(*kind)),
        _ => Ok(StaticType::Unknown),
    }
}

/// The slots of a new loop: its variable, its counter, and its limit or domain.
#[derive(Clone, Copy)]
struct Slots {
    variable: u32,
    counter: u32,
    beside: u32,
}

fn new_slots(here: &Here) -> Result<Slots, AllocError>
    ensures variable { IfOk result (λ s. s.variable ≡ slot (where_of here.now) (new_place (where_of here.now))) }
    ensures counter { IfOk result (λ s. s.counter ≡ counter (where_of here.now) (new_place (where_of here.now))) }
    ensures beside { IfOk result (λ s. s.beside ≡ beside (where_of here.now) (new_place (where_of here.now))) }
{
    let place = here.next_place()?;
    Ok(Slots {
        variable: here.slot(place)?,
        counter: here.counter(place)?,
        beside: here.beside(place)?,
    })
}

/// The domain of a loop over a region or an index space goes into its slot.
pub fn before_points(here: &Here, body: &mut Body, domain: &Expr) -> Result<Taken, AllocError>
    ensures typed { IfOk result (λ t. t.static_type ≡ taken_from (typed (where_of here.now) (expression_of domain.now))) }
    ensures head { IfOk result (λ t. t.head ≡ point_head (where_of here.now) t.static_type) }
    ensures space { IfOk result (λ t. t.over_space ≡ is_space (typed (where_of here.now) (expression_of domain.now))) }
    ensures code { OnOk result (body.new ≡ emitted body.old (domain_code (where_of here.now) (expression_of domain.now))) }
{
    let over = expression(here, body, 0, domain)?;
    let static_type = taken_from(here.alloc(), &over)?;
    let slots = new_slots(here)?;
    one(here, body, Instr::Store(slots.beside))?;
    let head = Head::Point {
        domain: slots.beside,
        counter: slots.counter,
        variable: slots.variable,
        pointers: is_pointer(&static_type),
    };
    Ok(Taken {
        static_type,
        head,
        over_space: is_space(&over),
    })
}

/// The counter of a loop that goes point by point begins with 0.
pub fn begin_points(here: &Here, body: &mut Body) -> Result<(), AllocError>
    ensures { OnOk result (body.new ≡ emitted body.old (counter_code (where_of here.now))) }
{
    let slots = new_slots(here)?;
    one(here, body, Instr::Num(0))?;
    one(here, body, Instr::Store(slots.counter))
}

/// The slot of the domain of a new loop.
pub fn domain_slot(here: &Here) -> Result<u32, AllocError>
    ensures { IfOk result (λ s. s ≡ beside (where_of here.now) (new_place (where_of here.now))) }
{
    Ok(new_slots(here)?.beside)
}

/// The bounds of a loop over numbers, and the type of its variable.
fn bounds(here: &Here, body: &mut Body, from: &Expr, to: &Expr) -> Result<StaticType, AllocError>
    ensures typed { IfOk result (λ t. t ≡ arithmetic_type (typed (where_of here.now) (expression_of from.now))
        (typed (where_of here.now) (expression_of to.now))) }
    ensures code { OnOk result (body.new ≡ emitted body.old (expr_code (where_of here.now) 0 (expression_of from.now)
        ⨟ expr_code (where_of here.now) 0 (expression_of to.now))) }
{
    let from = expression(here, body, 0, from)?;
    let to = expression(here, body, 0, to)?;
    Ok(arithmetic_type(from, to))
}

/// What stands before a loop over numbers.
pub fn before_numbers(
    here: &Here,
    body: &mut Body,
    from: &Expr,
    to: &Expr,
) -> Result<Taken, AllocError>
    ensures typed { IfOk result (λ t. t.static_type ≡ arithmetic_type (typed (where_of here.now) (expression_of from.now))
        (typed (where_of here.now) (expression_of to.now))) }
    ensures head { IfOk result (λ t. t.head ≡ number_head (where_of here.now)) }
    ensures code { OnOk result (body.new ≡ emitted body.old
        (numbers_code (where_of here.now) (expression_of from.now) (expression_of to.now))) }
{
    let static_type = bounds(here, body, from, to)?;
    let slots = new_slots(here)?;
    one(here, body, Instr::Store(slots.beside))?;
    one(here, body, Instr::Store(slots.counter))?;
    let head = Head::Number {
        counter: slots.counter,
        limit: slots.beside,
        variable: slots.variable,
    };
    Ok(Taken {
        static_type,
        head,
        over_space: false,
    })
}

/// Behind a loop's test, the jumps past the loop and back to its turn.
pub fn again(body: &mut Body, head: u32, line: u32) -> Result<(), AllocError>
    ensures { OnOk result (body.new ≡ tested line head body.old) }
{
    let place = body.place()?;
    let (Some(past), Some(turn)) = (place.checked_add(2), head.checked_add(1)) else {
        return Err(AllocError);
    };
    body.add(Instr::JumpIfNot(past), line)?;
    body.add(Instr::Jump(turn), line)
}

/// A loop's head, with the place of the jump to the test kept free.
pub fn begin_turns(body: &mut Body, line: u32) -> Result<u32, AllocError>
    ensures place { IfOk result (λ p. p ≡ length body.old) }
    ensures body { OnOk result (body.new ≡ added (opened body.old line) instr.Turn line) }
{
    let head = body.open(line)?;
    body.add(Instr::Turn, line)?;
    Ok(head)
}
