//! Variables that begin as other ones, and differences of partitions.

ghost use Rattle.std.specs.Option.{option_copied};
ghost use Rattle.std.specs.Prelude.{◌≡◌, OnOk};
ghost use Rattle.regent_tree.specs.Plain.{expression_of, links_in};
ghost use Rattle.regent_tree.specs.Typing.{parent_of, reaches_of};
ghost use Rattle.code_rules.specs.Emitted.{emitted};
ghost use Rattle.code_rules.specs.Expressions.{expr_code};
ghost use Rattle.code_rules.specs.Initializers.{beside_code, names_child, plain_code};
ghost use Rattle.code_rules.specs.Pieces.{◌⨟◌};
ghost use Rattle.compile_types.specs.Here.{where_of};
ghost use Rattle.compile_forms.specs.Alone.{beside_of, difference_code, name_alone, name_taken_off};

use compile_expressions::{Body, expression, one};
use compile_types::Here;
use regent_tree::{Arithmetic, Expr, Link, Name, Operator, Reach, StaticType, Term};
use std::alloc::AllocError;
use task_code::Instr;

/// The name that is all of an expression.
fn name_alone(e: &Expr) -> Option<&Name>
    ensures { option_copied result ≡ name_alone (expression_of e.now) }
{
    match e {
        Expr::Access { name, steps } => { if steps.is_empty() { Some(name) } else { None } }
        _ => None,
    }
}

/// The name that is all of what is taken off.
#[tactic(auto, using(crate::proofs::Alone::other_links, crate::proofs::Alone::one_link))]
fn name_taken_off(rest: &[Link]) -> Option<&Name>
    ensures { option_copied result ≡ name_taken_off (links_in rest.now) }
{
    if rest.len() != 1 {
        return None;
    }
    let link = &rest[0];
    if link.operator == Operator::Compute(Arithmetic::Subtract) {
        name_alone(&link.operand)
    } else {
        None
    }
}

/// The regions of a pointer type's list.
fn reaches_of(t: &StaticType) -> &[Reach]
    ensures { result.now ≡ reaches_of t.now }
{
    match t {
        StaticType::Pointer { regions, .. } => regions.as_slice(),
        _ => &[],
    }
}

/// Whether the first of a pointer type's regions is a child.
fn names_child(reaches: &[Reach]) -> bool
    ensures { result ≡ names_child reaches.now }
{
    matches!(reaches.first(), Some(Some(Term::Child { .. })))
}

/// Where a pointer into a child begins as another variable, the child's region is copied too.
fn beside_name(here: &Here, body: &mut Body, t: &StaticType, name: &Name) -> Result<(), AllocError>
    ensures { OnOk result (body.new ≡ emitted body.old (beside_of (where_of here.now) t.now name.now)) }
{
    if !names_child(reaches_of(t)) {
        return Ok(());
    }
    one(
        here,
        body,
        Instr::Load(here.beside(here.place_named(name))?),
    )?;
    one(here, body, Instr::Store(here.beside(here.next_place()?)?))
}

#[tactic(auto, using(crate::proofs::Alone::beside_alone))]
fn beside(here: &Here, body: &mut Body, t: &StaticType, e: &Expr) -> Result<(), AllocError>
    ensures { OnOk result (body.new ≡ emitted body.old (beside_code (where_of here.now) t.now (expression_of e.now))) }
{
    match name_alone(e) {
        Some(name) => beside_name(here, body, t, name),
        None => Ok(()),
    }
}

/// The value of a variable that begins with an expression.
fn value(here: &Here, body: &mut Body, t: &StaticType, e: &Expr) -> Result<(), AllocError>
    ensures { OnOk result (body.new ≡ emitted body.old
        (expr_code (where_of here.now) 0 (expression_of e.now) ⨟ beside_code (where_of here.now) t.now (expression_of e.now))) }
{
    expression(here, body, 0, e)?;
    beside(here, body, t, e)
}

/// A variable that begins with the difference of two partitions, where two names stand for them, or else with an
/// expression.
fn difference(
    here: &Here,
    body: &mut Body,
    t: &StaticType,
    parent: u32,
    e: &Expr,
    names: (Option<&Name>, Option<&Name>),
) -> Result<(), AllocError>
    ensures { OnOk result (body.new ≡ emitted body.old
        (difference_code (where_of here.now) t.now parent (expression_of e.now) (option_copied names.entry.0) (option_copied names.entry.1))) }
{
    let (Some(p), Some(q)) = names else {
        return value(here, body, t, e);
    };
    let (p, q) = (here.slot_named(p)?, here.slot_named(q)?);
    one(here, body, Instr::Minus(p, q, here.slot_bound(parent)?))
}

/// A variable that begins with an expression or a difference of partitions, and whose type isn't written.
pub fn plain(here: &Here, body: &mut Body, t: &StaticType, e: &Expr) -> Result<(), AllocError>
    ensures { OnOk result (body.new ≡ emitted body.old (plain_code (where_of here.now) t.now (expression_of e.now))) }
{
    match (t, e) {
        (StaticType::Partition { parent, .. }, Expr::Chain { first, rest }) => {
            let names = (name_alone(first), name_taken_off(rest.as_slice()));
            difference(here, body, t, *parent, e, names)
        }
        _ => value(here, body, t, e),
    }
}
