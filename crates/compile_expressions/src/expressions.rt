//! The code of expressions.

ghost use Rattle.std.specs.Prelude.{◌≡◌, IfOk, OnOk, drop};
ghost use Rattle.regent_tree.specs.Operators.{compares_pointers};
ghost use Rattle.regent_tree.specs.Plain.{expression_of, expressions_in, links_in, step_before, steps_in};
ghost use Rattle.regent_tree.specs.Syntax.{a_link, access_expr, an_expr, at_step, call_expr, no_expr, no_link, no_step};
ghost use Rattle.regent_tree.specs.Typing.{linked_type, operated, signed_type, type_of};
ghost use Rattle.regent_tree.specs.declared.typing.StaticType.TheVariants.{Truth as truth_type};
ghost use Rattle.task_code.specs.declared.instr.Instr.TheVariants as instr;
ghost use Rattle.code_rules.specs.Emitted.{emitted};
ghost use Rattle.code_rules.specs.Expressions.{count, expr_code, exprs_code, links_code};
ghost use Rattle.code_rules.specs.Instructions.{signs_code, standing_code};
ghost use Rattle.code_rules.specs.Pieces.{over, ◌⨟◌};
ghost use Rattle.code_rules.specs.Slots.{typed};
ghost use Rattle.compile_types.specs.Here.{where_of};
ghost use Rattle.compile_expressions.specs.Leads.{IsReached, Leads};
ghost use Rattle.compile_expressions.specs.Members.{called_code, computed_code};

use crate::body::Body;
use crate::reached::{Reached, field_taken, reached_element};
use crate::single::{
    all_signs, as_number, cast, converted, element, keep, load, one, operand, operating, standing,
};
use compile_types::{
    Here, operated, params_at, result_of, signed_type, type_of, type_of_name, written_pointer,
};
use regent_tree::{Expr, Link, Name, Operator, Sign, StaticType, Step};
use static_types::{is_pointer, number_type};
use std::alloc::AllocError;
use task_code::Instr;

/// An expression at a depth of children that are in use. Its type is told.
#[cycle(expression)]
pub fn expression(
    here: &Here,
    body: &mut Body,
    depth: u32,
    e: &Expr,
) -> Result<StaticType, AllocError>
    ensures typed { IfOk result (λ t. t ≡ type_of (where_of here.now).tree (where_of here.now).scope (expression_of e.now)) }
    ensures code { OnOk result (body.new ≡ emitted body.old (expr_code (where_of here.now) depth (expression_of e.now))) }
{
    match e {
        Expr::Number { value, width } => {
            one(here, body, Instr::Num(*value))?;
            Ok(StaticType::Integer(*width))
        }
        Expr::Truth(truth) => {
            one(here, body, Instr::Num(*truth as i64))?;
            Ok(StaticType::Truth)
        }
        Expr::Chain { first, rest } => {
            let left = expression(here, body, depth, first)?;
            links(here, body, depth, left, rest.as_slice())
        }
        Expr::Prefix { signs, inner } => {
            let t = expression(here, body, depth, inner)?;
            prefixed(here, body, signs.as_slice(), t)
        }
        Expr::Call { task, args } => call(here, body, depth, task, args.as_slice()),
        Expr::Access { name, steps } => accessed(here, body, depth, name, steps.as_slice()),
        Expr::Convert { to, inner } => {
            let t = expression(here, body, depth, inner)?;
            standing(here, body, &t)?;
            as_number(here, body, *to)?;
            Ok(number_type(*to))
        }
        Expr::IsNull(inner) => {
            expression(here, body, depth, inner)?;
            one(here, body, Instr::IsNull)?;
            Ok(StaticType::Truth)
        }
        Expr::Null(pointer) => {
            one(here, body, Instr::Num(-1))?;
            written_pointer(here, pointer)
        }
        Expr::Cast { pointer, inner } => {
            let t = expression(here, body, depth, inner)?;
            let to = written_pointer(here, pointer)?;
            cast(here, body, &t, &to)?;
            Ok(to)
        }
        Expr::Space { kind, size } => {
            expression(here, body, depth, size)?;
            one(here, body, Instr::Space)?;
            Ok(StaticType::Ispace(*kind))
        }
    }
}

/// What stands behind prefixes, by its type.
fn prefixed(
    here: &Here,
    body: &mut Body,
    signs: &[Sign],
    t: StaticType,
) -> Result<StaticType, AllocError>
    ensures typed { IfOk result (λ u. u ≡ signed_type signs.now t) }
    ensures code { OnOk result (body.new ≡ emitted body.old
        (standing_code (where_of here.now) t ⨟ signs_code (where_of here.now) t signs.now)) }
{
    standing(here, body, &t)?;
    all_signs(here, body, &t, signs)?;
    Ok(signed_type(signs, t))
}

/// A call in an expression, whose result is waited for at once.
#[cycle(expression)]
fn call(
    here: &Here,
    body: &mut Body,
    depth: u32,
    task: &Name,
    args: &[Expr],
) -> Result<StaticType, AllocError>
    ensures typed { IfOk result (λ t. t ≡ type_of (where_of here.now).tree (where_of here.now).scope (call_expr task.now (expressions_in args.now))) }
    ensures code { OnOk result (body.new ≡ emitted body.old (expr_code (where_of here.now) depth (call_expr task.now (expressions_in args.now)))) }
{
    called(here, body, depth, task, args)?;
    let slot = here.result(depth)?;
    one(here, body, Instr::Store(slot))?;
    one(here, body, Instr::Load(slot))?;
    result_of(here, task)
}

/// A call with its arguments.
#[cycle(expression)]
pub fn called(
    here: &Here,
    body: &mut Body,
    depth: u32,
    task: &Name,
    args: &[Expr],
) -> Result<(), AllocError>
    ensures { OnOk result (body.new ≡ emitted body.old (called_code (where_of here.now) depth task.now (expressions_in args.now))) }
{
    let types = params_at(here, task, args)?;
    arguments(here, body, depth, &types, args)?;
    let place = here.site.symbols.place_of_task(task)?;
    one(here, body, Instr::Call(place, counted(args)?))
}

/// Arguments, each converted to the type of its parameter where there is one.
#[cycle(expression)]
pub fn arguments(
    here: &Here,
    body: &mut Body,
    depth: u32,
    types: &[StaticType],
    args: &[Expr],
) -> Result<(), AllocError>
    ensures { OnOk result (body.new ≡ emitted body.old (exprs_code (where_of here.now) depth types.now (expressions_in args.now))) }
{
    for (place, arg) in args.iter().enumerate() {
        argument(here, body, depth, types, place, arg)?;
    }
    Ok(())
}

/// The argument at a place.
#[cycle(expression)]
pub fn argument(
    here: &Here,
    body: &mut Body,
    depth: u32,
    types: &[StaticType],
    place: usize,
    arg: &Expr,
) -> Result<(), AllocError>
    ensures { OnOk result (body.new ≡ emitted body.old (exprs_code (where_of here.now) depth (drop place types.now) (an_expr (expression_of arg.now) no_expr))) }
{
    let t = expression(here, body, depth, arg)?;
    match types.get(place) {
        Some(to) => converted(here, body, &t, to),
        None => Ok(()),
    }
}

/// Behind the first member of a chain, from the type of what stands on the left.
#[cycle(expression)]
fn links(
    here: &Here,
    body: &mut Body,
    depth: u32,
    first: StaticType,
    rest: &[Link],
) -> Result<StaticType, AllocError>
    ensures typed { IfOk result (λ t. t ≡ linked_type (where_of here.now).tree (where_of here.now).scope first (links_in rest.now)) }
    ensures code { OnOk result (body.new ≡ emitted body.old (links_code (where_of here.now) depth first (links_in rest.now))) }
{
    let mut left = first;
    for link in rest {
        left = linked(here, body, depth, left, link)?;
    }
    Ok(left)
}

/// One further member of a chain.
#[cycle(expression)]
fn linked(
    here: &Here,
    body: &mut Body,
    depth: u32,
    left: StaticType,
    link: &Link,
) -> Result<StaticType, AllocError>
    ensures typed { IfOk result (λ t. t ≡ operated link.now.operator left (typed (where_of here.now) (expression_of link.now.operand))) }
    ensures code { OnOk result (body.new ≡ emitted body.old (links_code (where_of here.now) depth left (a_link link.now.operator (expression_of link.now.operand) no_link))) }
{
    match link.operator {
        Operator::Or => either(here, body, depth, &link.operand),
        Operator::And => both(here, body, depth, &link.operand),
        Operator::Compare(comparison) => computed(
            here,
            body,
            depth,
            Operator::Compare(comparison),
            left,
            &link.operand,
        ),
        Operator::Compute(arithmetic) => computed(
            here,
            body,
            depth,
            Operator::Compute(arithmetic),
            left,
            &link.operand,
        ),
    }
}

/// The right side of `or`, which is passed over where the left one is true.
#[cycle(expression)]
fn either(here: &Here, body: &mut Body, depth: u32, e: &Expr) -> Result<StaticType, AllocError>
    ensures typed { IfOk result (λ t. t ≡ truth_type) }
    ensures code { OnOk result (body.new ≡ emitted body.old (over instr.OrJump (where_of here.now).line (expr_code (where_of here.now) depth (expression_of e.now)))) }
{
    let head = body.open(here.line)?;
    expression(here, body, depth, e)?;
    body.put(head, Instr::OrJump(body.place()?), here.line);
    Ok(StaticType::Truth)
}

/// The right side of `and`, which is passed over where the left one is false.
#[cycle(expression)]
fn both(here: &Here, body: &mut Body, depth: u32, e: &Expr) -> Result<StaticType, AllocError>
    ensures typed { IfOk result (λ t. t ≡ truth_type) }
    ensures code { OnOk result (body.new ≡ emitted body.old (over instr.AndJump (where_of here.now).line (expr_code (where_of here.now) depth (expression_of e.now)))) }
{
    let head = body.open(here.line)?;
    expression(here, body, depth, e)?;
    body.put(head, Instr::AndJump(body.place()?), here.line);
    Ok(StaticType::Truth)
}

/// The right side of an operator that evaluates both operands, and the operator.
#[cycle(expression)]
fn computed(
    here: &Here,
    body: &mut Body,
    depth: u32,
    operator: Operator,
    left: StaticType,
    e: &Expr,
) -> Result<StaticType, AllocError>
    ensures typed { IfOk result (λ t. t ≡ operated operator left (typed (where_of here.now) (expression_of e.now))) }
    ensures code { OnOk result (body.new ≡ emitted body.old (computed_code (where_of here.now) depth operator left (expression_of e.now))) }
{
    let stays = compares_pointers(here, operator, &left, e)?;
    operand(here, body, stays, &left)?;
    let right = expression(here, body, depth, e)?;
    operand(here, body, stays, &right)?;
    one(here, body, operating(operator, &left, &right))?;
    Ok(operated(operator, left, right))
}

/// An access, by the name that it begins with and its steps.
#[cycle(expression)]
pub fn access(
    here: &Here,
    body: &mut Body,
    depth: u32,
    name: &Name,
    steps: &[Step],
) -> Result<Reached, AllocError>
    ensures { IfOk result (λ r. IsReached (where_of here.now) body.old body.new depth name.now (steps_in steps.now) r) }
{
    let t = type_of_name(here, name)?;
    load(here, body, &t, here.slot_named(name)?, steps)?;
    let slot = here.own_slot(&t, here.place_named(name))?;
    walk(
        here,
        body,
        Reached {
            static_type: t,
            slot,
            depth,
        },
        steps,
    )
}

/// The value of an access.
#[cycle(expression)]
fn accessed(
    here: &Here,
    body: &mut Body,
    depth: u32,
    name: &Name,
    steps: &[Step],
) -> Result<StaticType, AllocError>
    ensures typed { IfOk result (λ t. t ≡ type_of (where_of here.now).tree (where_of here.now).scope (access_expr name.now (steps_in steps.now))) }
    ensures code { OnOk result (body.new ≡ emitted body.old (expr_code (where_of here.now) depth (access_expr name.now (steps_in steps.now)))) }
{
    let reached = access(here, body, depth, name, steps)?;
    Ok(reached.static_type)
}

/// The steps of an access, from what it begins with.
#[cycle(expression)]
fn walk(here: &Here, body: &mut Body, from: Reached, steps: &[Step]) -> Result<Reached, AllocError>
    ensures { IfOk result (λ r. Leads (where_of here.now) body.old body.new from r (steps_in steps.now) no_step) }
{
    let mut reached = from;
    for (place, step) in steps.iter().enumerate() {
        reached = stepped(here, body, reached, step, &steps[place + 1..])?;
    }
    Ok(reached)
}

/// An element of what was reached.
#[cycle(expression)]
fn element_taken(
    here: &Here,
    body: &mut Body,
    from: Reached,
    e: &Expr,
    rest: &[Step],
) -> Result<Reached, AllocError>
    ensures { IfOk result (λ r. Leads (where_of here.now) body.old body.new from r (at_step (expression_of e.now) (steps_in rest.now)) (steps_in rest.now)) }
{
    let t = expression(here, body, from.depth, e)?;
    standing(here, body, &t)?;
    element(here, body, &from.static_type, from.slot)?;
    keep(here, body, from.depth, &from.static_type, rest)?;
    reached_element(here, &from, e)
}

/// One step of an access, with those behind it.
#[cycle(expression)]
fn stepped(
    here: &Here,
    body: &mut Body,
    from: Reached,
    step: &Step,
    rest: &[Step],
) -> Result<Reached, AllocError>
    ensures { IfOk result (λ r. Leads (where_of here.now) body.old body.new from r (step_before step.now (steps_in rest.now)) (steps_in rest.now)) }
{
    match step {
        Step::Field(name) => field_taken(here, body, from, name, rest),
        Step::At(e) => element_taken(here, body, from, e, rest),
    }
}

/// How many arguments there are. More than 8 bits can say count as a want of memory.
#[tactic(auto, using(crate::proofs::Members::counted))]
fn counted(args: &[Expr]) -> Result<u8, AllocError>
    ensures { IfOk result (λ n. n ≡ count (expressions_in args.now)) }
{
    match u8::try_from(args.len()) {
        Ok(number) => Ok(number),
        Err(_) => Err(AllocError),
    }
}

/// Whether the operands of an operator stay pointers.
fn compares_pointers(
    here: &Here,
    operator: Operator,
    left: &StaticType,
    e: &Expr,
) -> Result<bool, AllocError>
    ensures { IfOk result (λ b. b ≡ compares_pointers operator left.now (typed (where_of here.now) (expression_of e.now))) }
{
    if !matches!(operator, Operator::Compare(_)) || !is_pointer(left) {
        return Ok(false);
    }
    let right = type_of(here, e)?;
    Ok(is_pointer(&right))
}
