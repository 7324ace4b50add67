//! The code of statements in which no block stands.

ghost use Rattle.std.specs.Option.{option_map};
ghost use Rattle.std.specs.Prelude.{◌≡◌, OnOk, true};
ghost use Rattle.regent_tree.specs.Plain.{expression_of, expressions_in, steps_in};
ghost use Rattle.regent_tree.specs.PlainProgram.{form_of};
ghost use Rattle.regent_tree.specs.Syntax.{assign_form, assert_form, call_expr, call_form, no_step, print_form, return_form};
ghost use Rattle.regent_tree.specs.declared.statement.How.TheVariants as hows;
ghost use Rattle.code_rules.specs.Assignments.{right_code, target_code};
ghost use Rattle.code_rules.specs.Pieces.{◌⨟◌};
ghost use Rattle.code_rules.specs.Emitted.{emitted};
ghost use Rattle.code_rules.specs.Statements.{form_code};
ghost use Rattle.compile_types.specs.Here.{where_of};
ghost use Rattle.compile_forms.specs.Forms.{is_plain};

use crate::assignments::{right, target};
use crate::fills::fill;
use crate::kept::{is_still, keeps, put_call};
use compile_expressions::{Body, arguments, called, converted, expression, one};
use compile_tables::parts_of;
use compile_types::{Here, type_of_name};
use regent_tree::{Expr, How, Name, Step, What};
use std::alloc::AllocError;
use task_code::Instr;

fn assert(here: &Here, body: &mut Body, test: &Expr) -> Result<(), AllocError>
    ensures { OnOk result (body.new ≡ emitted body.old (form_code (where_of here.now) (assert_form (expression_of test.now)))) }
{
    expression(here, body, 0, test)?;
    one(here, body, Instr::Assert)
}

fn print(
    here: &Here,
    body: &mut Body,
    alias: &Option<Name>,
    format: &[u8],
    args: &[Expr],
) -> Result<(), AllocError>
    ensures { OnOk result (body.new ≡ emitted body.old
        (form_code (where_of here.now) (print_form alias.now format.now (expressions_in args.now)))) }
{
    arguments(here, body, 0, &[], args)?;
    let parts = parts_of(here.alloc(), format)?;
    one(here, body, Instr::Print(parts))
}

/// A call that stands alone, whose result is dropped.
fn call(here: &Here, body: &mut Body, task: &Name, args: &[Expr]) -> Result<(), AllocError>
    ensures { OnOk result (body.new ≡ emitted body.old
        (form_code (where_of here.now) (call_form task.now (expressions_in args.now)))) }
{
    called(here, body, 0, task, args)?;
    one(here, body, Instr::Drop)
}

/// A value that goes to its target from the stack.
fn assign_from_stack(
    here: &Here,
    body: &mut Body,
    name: &Name,
    steps: &[Step],
    how: How,
    value: &Expr,
) -> Result<(), AllocError>
    ensures { OnOk result (body.new ≡ emitted body.old
        (right_code (where_of here.now) name.now (steps_in steps.now) how (expression_of value.now)
        ⨟ target_code (where_of here.now) name.now (steps_in steps.now) how)) }
{
    right(here, body, name, steps, how, value)?;
    target(here, body, name, steps, how)
}

/// A call's result goes to a variable as it comes, where nothing has to be made of it.
fn assign_call(
    here: &Here,
    body: &mut Body,
    name: &Name,
    value: &Expr,
    task: &Name,
    args: &[Expr],
) -> Result<(), AllocError>
    requires { expression_of value.now ≡ call_expr task.now (expressions_in args.now) }
    ensures { OnOk result (body.new ≡ emitted body.old
        (form_code (where_of here.now) (assign_form name.now no_step hows.Set (call_expr task.now (expressions_in args.now))))) }
{
    let t = type_of_name(here, name)?;
    if !is_still(here, name) && keeps(here, &t, task, args)? {
        return put_call(here, body, here.slot_named(name)?, task, args);
    }
    assign_from_stack(here, body, name, &[], How::Set, value)
}

/// A variable is set to a value.
fn assign_name(here: &Here, body: &mut Body, name: &Name, value: &Expr) -> Result<(), AllocError>
    ensures { OnOk result (body.new ≡ emitted body.old
        (form_code (where_of here.now) (assign_form name.now no_step hows.Set (expression_of value.now)))) }
{
    if is_still(here, name) {
        return assign_from_stack(here, body, name, &[], How::Set, value);
    }
    match value {
        Expr::Call { task, args } => assign_call(here, body, name, value, task, args.as_slice()),
        _ => assign_from_stack(here, body, name, &[], How::Set, value),
    }
}

/// A variable is set to a value, or changed by one.
fn assign_alone(
    here: &Here,
    body: &mut Body,
    name: &Name,
    how: How,
    value: &Expr,
) -> Result<(), AllocError>
    ensures { OnOk result (body.new ≡ emitted body.old
        (form_code (where_of here.now) (assign_form name.now no_step how (expression_of value.now)))) }
{
    match how {
        How::Set => assign_name(here, body, name, value),
        How::Reduce(_) => assign_from_stack(here, body, name, &[], how, value),
    }
}

fn assign(
    here: &Here,
    body: &mut Body,
    name: &Name,
    steps: &[Step],
    how: How,
    value: &Expr,
) -> Result<(), AllocError>
    ensures { OnOk result (body.new ≡ emitted body.old
        (form_code (where_of here.now) (assign_form name.now (steps_in steps.now) how (expression_of value.now)))) }
{
    match steps {
        [] => assign_alone(here, body, name, how, value),
        [Step::At(_), ..] | [Step::Field(_), ..] => {
            assign_from_stack(here, body, name, steps, how, value)
        }
    }
}

fn return_any(here: &Here, body: &mut Body, value: &Option<Expr>) -> Result<(), AllocError>
    ensures { OnOk result (body.new ≡ emitted body.old
        (form_code (where_of here.now) (return_form (option_map expression_of value.now)))) }
{
    let Some(value) = value else {
        return one(here, body, Instr::Return);
    };
    let from = expression(here, body, 0, value)?;
    converted(here, body, &from, here.site.result)?;
    one(here, body, Instr::ReturnValue)
}

/// A statement that binds no name and in which no block stands.
pub fn without_block(here: &Here, body: &mut Body, what: &What) -> Result<(), AllocError>
    requires { is_plain (form_of what.now) ≡ true }
    ensures { OnOk result (body.new ≡ emitted body.old (form_code (where_of here.now) (form_of what.now))) }
{
    match what {
        What::Fill {
            region,
            fields,
            value,
        } => fill(here, body, region, fields.as_slice(), value),
        What::Assert { test } => assert(here, body, test),
        What::Print {
            alias,
            format,
            args,
        } => print(here, body, alias, format.as_slice(), args.as_slice()),
        What::Call { task, args } => call(here, body, task, args.as_slice()),
        What::Assign {
            target,
            steps,
            how,
            value,
        } => assign(here, body, target, steps.as_slice(), *how, value),
        What::Return { value } => return_any(here, body, value),
        What::Var { .. }
        | What::If { .. }
        | What::While { .. }
        | What::ForIn { .. }
        | What::ForTo { .. }
        | What::Do { .. } => unreachable!(),
    }
}
