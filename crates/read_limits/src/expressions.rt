//! Pointer types in expressions.

ghost use Rattle.std.specs.Prelude.{◌≡◌, length};
ghost use Rattle.regent_tree.specs.Limits.{first_excess, parts_of_expression, parts_of_expressions};
ghost use Rattle.regent_tree.specs.Limits.{parts_of_links, parts_of_pointer, parts_of_steps};
ghost use Rattle.regent_tree.specs.Plain.{expression_of, expressions_in, links_in, steps_in};
ghost use Rattle.read_limits.specs.Parts.{parts_of_step};

use regent_tree::{Counted, Excess, Expr, Link, PointerTerm, Step};

/// A pointer type with too many regions.
pub fn in_pointer(pointer: &PointerTerm) -> Option<Excess>
    ensures { result ≡ first_excess (parts_of_pointer pointer.now) }
{
    let count = pointer.regions.len();
    if count > 4 {
        Some(Excess {
            what: Counted::Regions,
            count,
        })
    } else {
        None
    }
}

/// The first excess in an expression.
#[cycle(expression)]
pub fn in_expression(e: &Expr) -> Option<Excess>
    ensures { result ≡ first_excess (parts_of_expression (expression_of e.now)) }
{
    match e {
        Expr::Number { .. } | Expr::Truth(_) => None,
        Expr::Chain { first, rest } => {
            if let Some(excess) = in_expression(first) {
                return Some(excess);
            }
            in_links(rest.as_slice())
        }
        Expr::Prefix { inner, .. } => in_expression(inner),
        Expr::Call { args, .. } => in_expressions(args.as_slice()),
        Expr::Access { steps, .. } => in_steps(steps.as_slice()),
        Expr::Convert { inner, .. } => in_expression(inner),
        Expr::IsNull(inner) => in_expression(inner),
        Expr::Null(pointer) => in_pointer(pointer),
        Expr::Cast { pointer, inner } => {
            if let Some(excess) = in_pointer(pointer) {
                return Some(excess);
            }
            in_expression(inner)
        }
        Expr::Space { size, .. } => in_expression(size),
    }
}

/// The first excess after the first member of a chain.
#[cycle(expression)]
fn in_links(links: &[Link]) -> Option<Excess>
    ensures { result ≡ first_excess (parts_of_links (links_in links.now)) }
{
    for link in links {
        if let Some(excess) = in_expression(&link.operand) {
            return Some(excess);
        }
    }
    None
}

/// The first excess in arguments.
#[cycle(expression)]
pub fn in_expressions(args: &[Expr]) -> Option<Excess>
    ensures { result ≡ first_excess (parts_of_expressions (expressions_in args.now)) }
{
    for arg in args {
        if let Some(excess) = in_expression(arg) {
            return Some(excess);
        }
    }
    None
}

/// The first excess in the steps of an access.
#[cycle(expression)]
pub fn in_steps(steps: &[Step]) -> Option<Excess>
    ensures { result ≡ first_excess (parts_of_steps (steps_in steps.now)) }
{
    for step in steps {
        if let Some(excess) = in_step(step) {
            return Some(excess);
        }
    }
    None
}

/// The first excess in a step.
#[cycle(expression)]
fn in_step(step: &Step) -> Option<Excess>
    ensures { result ≡ first_excess (parts_of_step step.now) }
{
    match step {
        Step::Field(_) => None,
        Step::At(place) => in_expression(place),
    }
}
