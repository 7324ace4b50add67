//! Calls whose results are kept as they come, with nothing that waits for them.

ghost use Rattle.std.specs.Prelude.{◌≡◌, IfOk, OnOk};
ghost use Rattle.regent_tree.specs.Plain.{expressions_in};
ghost use Rattle.regent_tree.specs.Syntax.{call_expr};
ghost use Rattle.code_rules.specs.Emitted.{emitted};
ghost use Rattle.code_rules.specs.Instructions.{keeps_number};
ghost use Rattle.code_rules.specs.Slots.{bound, typed};
ghost use Rattle.code_rules.specs.Statements.{is_still, put_call};
ghost use Rattle.compile_types.specs.Here.{where_of};

use compile_expressions::{Body, called, one};
use compile_types::{Here, result_of};
use regent_tree::{Expr, Name, StaticType, Width};
use std::alloc::AllocError;
use task_code::Instr;

/// Whether a number of the one type is one of the other as it is.
fn keeps_number(from: &StaticType, to: &StaticType) -> bool
    ensures { result ≡ keeps_number from.now to.now }
{
    match (from, to) {
        (StaticType::Integer(Width::W32), StaticType::Integer(Width::W32))
        | (StaticType::Integer(Width::W64), StaticType::Integer(Width::W64))
        | (StaticType::Truth, StaticType::Truth)
        | (StaticType::Integer(_), StaticType::Index(_))
        | (StaticType::Index(_), StaticType::Index(_)) => true,
        _ => false,
    }
}

/// Whether a name is a parameter or a loop's variable.
pub fn is_still(here: &Here, name: &Name) -> bool
    ensures { result ≡ is_still (where_of here.now).params (bound (where_of here.now) name.now) }
{
    match here.names.bound_to(name) {
        Some(bound) => bound.by_loop || bound.place < here.site.params,
        None => 0 < here.site.params,
    }
}

/// Whether the result of a call goes to a place of a type as it comes.
pub fn keeps(here: &Here, t: &StaticType, task: &Name, args: &[Expr]) -> Result<bool, AllocError>
    ensures { IfOk result (λ b. b ≡ keeps_number (typed (where_of here.now) (call_expr task.now (expressions_in args.now))) t.now) }
{
    let from = result_of(here, task)?;
    Ok(keeps_number(&from, t))
}

/// A call, whose result goes into a slot as it comes.
pub fn put_call(
    here: &Here,
    body: &mut Body,
    slot: u32,
    task: &Name,
    args: &[Expr],
) -> Result<(), AllocError>
    ensures { OnOk result (body.new ≡ emitted body.old
        (put_call (where_of here.now) slot task.now (expressions_in args.now))) }
{
    called(here, body, 0, task, args)?;
    one(here, body, Instr::Store(slot))
}
