//! The code of index launches: the calls of a loop, issued in one step.

ghost use Rattle.std.specs.Prelude.{◌≡◌, ◌&&◌, IfNone, IfOk, IfSome, None, OnOk, Some, cond, drop, true};
ghost use Rattle.regent_tree.specs.Evaluation.{first_type};
ghost use Rattle.regent_tree.specs.Plain.{expression_of, expressions_in, steps_in};
ghost use Rattle.regent_tree.specs.PlainProgram.{block_in, form_of};
ghost use Rattle.regent_tree.specs.Scopes.{past, with_name};
ghost use Rattle.regent_tree.specs.Syntax.{access_expr};
ghost use Rattle.code_rules.specs.Emitted.{emitted};
ghost use Rattle.code_rules.specs.Launches.{arg_of, args_of, call_on, fixed_code, is_fixed, kept_code, launch_code, one_call, varying_arg};
ghost use Rattle.code_rules.specs.Initializers.{new_place};
ghost use Rattle.code_rules.specs.Pieces.{empty};
ghost use Rattle.code_rules.specs.Slots.{beside};
ghost use Rattle.code_rules.specs.Statements.{looping, on_line};
ghost use Rattle.compile_types.specs.Here.{where_at, where_of};
ghost use Rattle.compile_statements.specs.Scopes.{seen, where_in};
ghost use Rattle.compile_statements.specs.Shaped.{call_of};

use crate::at::At;
use crate::loops::{Taken, domain_slot};
use crate::scope::Scope;
use compile_expressions::{Body, argument, one};
use compile_types::{Here, params_at};
use index_launch::LaunchArg;
use plain_values::Sequence;
use program_tables::copy_name;
use regent_tree::{Expr, Name, StaticType, Step, Stmt, What};
use static_types::number_at;
use std::alloc::AllocError;
use task_code::Instr;

/// The call of a launch, with its line.
#[derive(Clone, Copy)]
pub struct Launched<'a> {
    pub line: u32,
    pub task: &'a Name,
    pub args: &'a [Expr],
}

/// The call that a statement on a line is.
fn call_on(line: u32, what: &What) -> Option<Launched<'_>>
    ensures some { IfSome result (λ c. call_on line (form_of what.now) ≡ Some (call_of c)) }
    ensures none { IfNone result (call_on line (form_of what.now) ≡ None) }
{
    match what {
        What::Call { task, args } => Some(Launched {
            line,
            task,
            args: args.as_slice(),
        }),
        What::Var { .. }
        | What::If { .. }
        | What::While { .. }
        | What::ForIn { .. }
        | What::ForTo { .. }
        | What::Do { .. }
        | What::Fill { .. }
        | What::Assert { .. }
        | What::Print { .. }
        | What::Assign { .. }
        | What::Return { .. } => None,
    }
}

/// The one call that a body is.
fn one_call(stmts: &[Stmt]) -> Option<Launched<'_>>
    ensures some { IfSome result (λ c. one_call (block_in stmts.now) ≡ Some (call_of c)) }
    ensures none { IfNone result (one_call (block_in stmts.now) ≡ None) }
{
    match stmts {
        [statement] => call_on(statement.line, &statement.what),
        [] => None,
        [_, _, ..] => None,
    }
}

/// The call of a loop with this body, where the loop is a launch and goes over an index space.
pub fn launched_call(over_space: bool, launches: bool, stmts: &[Stmt]) -> Option<Launched<'_>>
    ensures some { IfSome result (λ c. cond (over_space && launches) (one_call (block_in stmts.now)) None ≡ Some (call_of c)) }
    ensures none { IfNone result (cond (over_space && launches) (one_call (block_in stmts.now)) None ≡ None) }
{
    if over_space && launches {
        one_call(stmts)
    } else {
        None
    }
}

/// Whether an access is the same at each colour.
fn is_fixed_access(variable: &Name, name: &Name, steps: &[Step]) -> bool
    ensures { result ≡ is_fixed variable.now (access_expr name.now (steps_in steps.now)) }
{
    match steps {
        [] => !(*name == *variable),
        [Step::At(_), ..] => false,
        [Step::Field(_), ..] => true,
    }
}

/// Whether an argument is the same at each colour.
fn is_fixed(variable: &Name, e: &Expr) -> bool
    ensures { result ≡ is_fixed variable.now (expression_of e.now) }
{
    match e {
        Expr::Access { name, steps } => is_fixed_access(variable, name, steps.as_slice()),
        Expr::Convert { .. } => false,
        _ => true,
    }
}

/// The child of a partition, or the colour.
fn varying_access(here: &Here, name: &Name, steps: &[Step]) -> Result<LaunchArg, AllocError>
    ensures { IfOk result (λ a. a ≡ varying_arg (where_of here.now) (access_expr name.now (steps_in steps.now))) }
{
    match steps {
        [Step::At(_), ..] => Ok(LaunchArg::Child(here.slot_named(name)?)),
        [] | [Step::Field(_), ..] => Ok(LaunchArg::Point),
    }
}

/// An argument that isn't the same at each colour.
fn varying_arg(here: &Here, e: &Expr) -> Result<LaunchArg, AllocError>
    ensures { IfOk result (λ a. a ≡ varying_arg (where_of here.now) (expression_of e.now)) }
{
    match e {
        Expr::Access { name, steps } => varying_access(here, name, steps.as_slice()),
        _ => Ok(LaunchArg::Point),
    }
}

/// The argument at a place of a call.
fn arg_of(here: &Here, variable: &Name, place: u32, e: &Expr) -> Result<LaunchArg, AllocError>
    ensures { IfOk result (λ a. a ≡ arg_of (where_of here.now) variable.now place (expression_of e.now)) }
{
    if is_fixed(variable, e) {
        Ok(LaunchArg::Keep(here.spare(place)?))
    } else {
        varying_arg(here, e)
    }
}

fn args_of(here: &Here, variable: &Name, args: &[Expr]) -> Result<Sequence<LaunchArg>, AllocError>
    ensures { IfOk result (λ all. all ≡ args_of (where_of here.now) variable.now 0 (expressions_in args.now)) }
{
    let mut all = Sequence::new(here.alloc());
    for (place, arg) in args.iter().enumerate() {
        let arg = arg_of(here, variable, number_at(place)?, arg)?;
        all.push(arg)?;
    }
    Ok(all)
}

/// What is the same at each colour is computed, and waits in a slot of its own.
fn fixed(
    here: &Here,
    body: &mut Body,
    types: &[StaticType],
    place: usize,
    e: &Expr,
) -> Result<(), AllocError>
    ensures { OnOk result (body.new ≡ emitted body.old
        (fixed_code (where_of here.now) place (first_type (drop place types.now)) (expression_of e.now))) }
{
    argument(here, body, 0, types, place, e)?;
    let slot = here.spare(number_at(place)?)?;
    one(here, body, Instr::Store(slot))
}

/// The same of an argument that may vary.
fn kept(
    here: &Here,
    body: &mut Body,
    variable: &Name,
    types: &[StaticType],
    place: usize,
    e: &Expr,
) -> Result<(), AllocError>
    ensures { OnOk result (body.new ≡ emitted body.old (cond (is_fixed variable.now (expression_of e.now))
        (fixed_code (where_of here.now) place (first_type (drop place types.now)) (expression_of e.now)) empty)) }
{
    if is_fixed(variable, e) {
        fixed(here, body, types, place, e)
    } else {
        Ok(())
    }
}

/// All arguments that are the same at each colour.
fn all_kept(
    here: &Here,
    body: &mut Body,
    variable: &Name,
    types: &[StaticType],
    args: &[Expr],
) -> Result<(), AllocError>
    ensures { OnOk result (body.new ≡ emitted body.old
        (kept_code (where_of here.now) variable.now 0 types.now (expressions_in args.now))) }
{
    for (place, arg) in args.iter().enumerate() {
        kept(here, body, variable, types, place, arg)?;
    }
    Ok(())
}

/// A launch over the index space in a slot, from a loop on a line. The arguments stand where the call is.
fn launch(
    here: &Here,
    body: &mut Body,
    line: u32,
    variable: &Name,
    space: u32,
    task: &Name,
    args: &[Expr],
) -> Result<(), AllocError>
    ensures { OnOk result (body.new ≡ emitted body.old
        (launch_code (record (where_of here.now) { line = line }) (where_of here.now) variable.now space
        (record { line = here.now.line; task = task.now; args = expressions_in args.now }))) }
{
    let types = params_at(here, task, args)?;
    all_kept(here, body, variable, &types, args)?;
    let place = here.site.symbols.place_of_task(task)?;
    let args = args_of(here, variable, args)?;
    body.add(Instr::Launch(place, space, here.line, args), line)
}

/// The same in the scope of the loop's body.
fn launch_in(
    at: &At,
    scope: &Scope,
    body: &mut Body,
    variable: &Name,
    space: u32,
    call: &Launched,
) -> Result<(), AllocError>
    ensures { OnOk result (body.new ≡ emitted body.old (launch_code (where_in at.now scope.now)
        (where_at at.now.site.now (seen scope.now) call.now.line) variable.now space (call_of call.now))) }
{
    let on_line = At {
        site: at.site,
        line: call.line,
    };
    launch(
        &scope.here(&on_line),
        body,
        at.line,
        variable,
        space,
        call.task,
        call.args,
    )
}

/// The slot of the domain of a new loop, in a scope.
fn domain_slot_in(at: &At, scope: &Scope) -> Result<u32, AllocError>
    ensures { IfOk result (λ s. s ≡ beside (where_in at.now scope.now) (new_place (where_in at.now scope.now))) }
{
    domain_slot(&scope.here(at))
}

/// A launch in one step.
pub fn in_one_step(
    at: &At,
    scope: &mut Scope,
    body: &mut Body,
    name: &Name,
    taken: Taken,
    call: &Launched,
) -> Result<(), AllocError>
    ensures scope { OnOk result (seen scope.new ≡ past (seen scope.old) (with_name (seen scope.old) name.now taken.static_type true)) }
    ensures code { OnOk result (body.new ≡ emitted body.old (launch_code (where_in at.now scope.old)
        (on_line (looping (where_in at.now scope.old) name.now taken.static_type) call.now.line) name.now
        (beside (where_in at.now scope.old) (new_place (where_in at.now scope.old))) (call_of call.now))) }
{
    let Taken { static_type, .. } = taken;
    let space = domain_slot_in(at, scope)?;
    let mark = scope.mark();
    scope.bind(copy_name(at.site.alloc, name)?, static_type, true)?;
    launch_in(at, scope, body, name, space, call)?;
    scope.leave(mark);
    Ok(())
}
