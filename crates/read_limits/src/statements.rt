//! Pointer types in types and statements.

ghost use Rattle.std.specs.Prelude.{◌≡◌};
ghost use Rattle.read_limits.specs.Parts.{parts_of_arm};
ghost use Rattle.regent_tree.specs.Limits.{first_excess, parts_of_arms, parts_of_block, parts_of_form};
ghost use Rattle.regent_tree.specs.Limits.{parts_of_init, parts_of_params, parts_of_initializer};
ghost use Rattle.regent_tree.specs.Limits.{parts_of_term, parts_of_type, parts_of_value};
ghost use Rattle.regent_tree.specs.Plain.{expression_of, initializer_of};
ghost use Rattle.regent_tree.specs.PlainProgram.{arms_in, block_in, form_of};
ghost use Rattle.std.specs.Option.{option_map};

use crate::expressions::{in_expression, in_expressions, in_pointer, in_steps};
use regent_tree::{Arm, Excess, Expr, Init, Param, Stmt, TypeTerm, What};

/// The first excess in a type.
pub fn in_term(term: &TypeTerm) -> Option<Excess>
    ensures { result ≡ first_excess (parts_of_term term.now) }
{
    match term {
        TypeTerm::Pointer(pointer) => in_pointer(pointer),
        _ => None,
    }
}

/// The first excess in an optional type.
pub fn in_type(term: &Option<TypeTerm>) -> Option<Excess>
    ensures { result ≡ first_excess (parts_of_type term.now) }
{
    match term {
        None => None,
        Some(term) => in_term(term),
    }
}

/// The first excess in the types of parameters.
pub fn in_params(params: &[Param]) -> Option<Excess>
    ensures { result ≡ first_excess (parts_of_params params.now) }
{
    for param in params {
        if let Some(excess) = in_term(&param.term) {
            return Some(excess);
        }
    }
    None
}

fn in_initializer(initializer: &Init) -> Option<Excess>
    ensures { result ≡ first_excess (parts_of_initializer (initializer_of initializer.now)) }
{
    match initializer {
        Init::Region { space, .. } => in_expression(space),
        Init::Equal { colours, .. } => in_expression(colours),
        Init::ByField { colours, .. } => in_expression(colours),
        Init::Plain(value) => in_expression(value),
        Init::Image { .. } | Init::Preimage { .. } | Init::Both { .. } | Init::Either { .. } =>
            None,
    }
}

/// The first excess in the initializer of a variable.
fn in_init(init: &Option<Init>) -> Option<Excess>
    ensures { result ≡ first_excess (parts_of_init (option_map initializer_of init.now)) }
{
    match init {
        None => None,
        Some(initializer) => in_initializer(initializer),
    }
}

fn in_value(value: &Option<Expr>) -> Option<Excess>
    ensures { result ≡ first_excess (parts_of_value (option_map expression_of value.now)) }
{
    match value {
        None => None,
        Some(value) => in_expression(value),
    }
}

/// The first excess in the form of a statement.
#[cycle(statement)]
fn in_form(what: &What) -> Option<Excess>
    ensures { result ≡ first_excess (parts_of_form (form_of what.now)) }
{
    match what {
        What::Var { term, init, .. } => in_type(term).or(in_init(init)),
        What::If { arms, other } => {
            let excess = in_arms(arms.as_slice());
            match other {
                None => excess,
                Some(body) => excess.or(in_statements(body.as_slice())),
            }
        }
        What::While { test, body } => in_expression(test).or(in_statements(body.as_slice())),
        What::ForIn { domain, body, .. } => {
            in_expression(domain).or(in_statements(body.as_slice()))
        }
        What::ForTo { from, to, body, .. } => {
            in_expression(from)
                .or(in_expression(to))
                .or(in_statements(body.as_slice()))
        }
        What::Do { body } => in_statements(body.as_slice()),
        What::Fill { value, .. } => in_expression(value),
        What::Assert { test } => in_expression(test),
        What::Print { args, .. } => in_expressions(args.as_slice()),
        What::Call { args, .. } => in_expressions(args.as_slice()),
        What::Assign { steps, value, .. } => in_steps(steps.as_slice()).or(in_expression(value)),
        What::Return { value } => in_value(value),
    }
}

/// The first excess in statements.
#[cycle(statement)]
pub fn in_statements(body: &[Stmt]) -> Option<Excess>
    ensures { result ≡ first_excess (parts_of_block (block_in body.now)) }
{
    for statement in body {
        if let Some(excess) = in_form(&statement.what) {
            return Some(excess);
        }
    }
    None
}

/// The first excess in a test with its block.
#[cycle(statement)]
fn in_arm(arm: &Arm) -> Option<Excess>
    ensures { result ≡ first_excess (parts_of_arm arm.now) }
{
    in_expression(&arm.test).or(in_statements(arm.body.as_slice()))
}

/// The first excess in the tests of an `if` with their blocks.
#[cycle(statement)]
fn in_arms(arms: &[Arm]) -> Option<Excess>
    ensures { result ≡ first_excess (parts_of_arms (arms_in arms.now)) }
{
    for arm in arms {
        if let Some(excess) = in_arm(arm) {
            return Some(excess);
        }
    }
    None
}
