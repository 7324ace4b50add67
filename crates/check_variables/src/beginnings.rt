//! How variables begin.

ghost use Rattle.std.specs.Option.{option_copied};
ghost use Rattle.std.specs.Prelude.{◌≡◌, IfNone, IfSome, is_some, None, Some};
ghost use Rattle.regent_tree.specs.Lookup.{type_named};
ghost use Rattle.regent_tree.specs.Plain.{expression_of, links_in, initializer_of, steps_in};
ghost use Rattle.regent_tree.specs.Syntax.{plain_initializer};
ghost use Rattle.check_rules.specs.rules.Partitions.{is_difference};
ghost use Rattle.check_rules.specs.rules.Places.{begins_partition, begins_region};
ghost use Rattle.check_rules.specs.types.Sorts.{is_partition, may_be};
ghost use Rattle.check_variables.specs.Differences.{is_one_place, is_place, name_alone, name_taken_off, names_subtracted, subtracted, two_names};

use program_tables::Names;
use regent_tree::{Arithmetic, Expr, Init, Link, Name, Operator, Step};
use static_types::{is_partition, is_unknown};

/// The name that is all of an expression.
fn name_alone(e: &Expr) -> Option<&Name>
    ensures { option_copied result ≡ name_alone (expression_of e.now) }
{
    match e {
        Expr::Access { name, steps } => { if steps.is_empty() { Some(name) } else { None } }
        _ => None,
    }
}

/// The name that is all of what is taken off.
#[tactic(auto, using(crate::proofs::Alone::other_links, crate::proofs::Alone::one_link))]
fn name_taken_off(rest: &[Link]) -> Option<&Name>
    ensures { option_copied result ≡ name_taken_off (links_in rest.now) }
{
    if rest.len() != 1 {
        return None;
    }
    let link = &rest[0];
    if link.operator == Operator::Compute(Arithmetic::Subtract) {
        name_alone(&link.operand)
    } else {
        None
    }
}

fn two_names<'a>(one: Option<&'a Name>, other: Option<&'a Name>) -> Option<(&'a Name, &'a Name)>
    ensures found { IfSome result (λ pq.
        two_names (option_copied one.entry) (option_copied other.entry) ≡ Some (pq.0.now, pq.1.now)) }
    ensures missing { IfNone result (two_names (option_copied one.entry) (option_copied other.entry) ≡ None) }
{
    match (one, other) {
        (Some(p), Some(q)) => Some((p, q)),
        _ => None,
    }
}

/// The names of an expression that is two bare names with one `-`.
fn names_subtracted(e: &Expr) -> Option<(&Name, &Name)>
    ensures found { IfSome result (λ pq. names_subtracted (expression_of e.now) ≡ Some (pq.0.now, pq.1.now)) }
    ensures missing { IfNone result (names_subtracted (expression_of e.now) ≡ None) }
{
    match e {
        Expr::Chain { first, rest } => {
            two_names(name_alone(first), name_taken_off(rest.as_slice()))
        }
        _ => None,
    }
}

/// Whether a name may stand for a partition, as far as is known.
fn may_be_partition(names: &Names, name: &Name) -> bool
    ensures { result ≡ may_be is_partition (type_named names.now name.now) }
{
    match names.bound_to(name) {
        Some(bound) => is_unknown(&bound.static_type) || is_partition(&bound.static_type),
        None => true,
    }
}

/// The two partitions of which an expression is the difference: two bare names with one `-`.
#[tactic(auto, using(crate::proofs::Differences::other_is_none, crate::proofs::Differences::subtracted_is))]
pub fn difference<'a>(names: &Names, e: &'a Expr) -> Option<(&'a Name, &'a Name)>
    ensures found { is_some result ≡ is_difference names.now (expression_of e.now) }
    ensures names { IfSome result (λ pq. expression_of e.now ≡ subtracted pq.0.now pq.1.now) }
{
    let (p, q) = names_subtracted(e)?;
    if may_be_partition(names, p) && may_be_partition(names, q) {
        Some((p, q))
    } else {
        None
    }
}

/// Whether a step goes to a place.
fn is_place(step: &Step) -> bool
    ensures { result ≡ is_place step.now }
{
    matches!(step, Step::At(_))
}

/// Whether one place is all that stands behind a name.
#[tactic(auto, using(crate::proofs::Alone::other_steps, crate::proofs::Alone::one_step))]
fn is_one_place(steps: &[Step]) -> bool
    ensures { result ≡ is_one_place (steps_in steps.now) }
{
    steps.len() == 1 && is_place(&steps[0])
}

/// Whether an expression is a name with one place after it.
fn is_name_at_place(e: &Expr) -> bool
    ensures { result ≡ begins_region (plain_initializer (expression_of e.now)) }
{
    match e {
        Expr::Access { steps, .. } => is_one_place(steps.as_slice()),
        _ => false,
    }
}

/// Whether an initializer is one with which a region may begin: a new region, or a child.
pub fn begins_region(init: &Init) -> bool
    ensures { result ≡ begins_region (initializer_of init.now) }
{
    match init {
        Init::Region { .. } => true,
        Init::Plain(e) => is_name_at_place(e),
        _ => false,
    }
}

/// Whether an initializer is one with which a partition may begin: a partition operation.
pub fn begins_partition(names: &Names, init: &Init) -> bool
    ensures { result ≡ begins_partition names.now (initializer_of init.now) }
{
    match init {
        Init::Region { .. } => false,
        Init::Plain(e) => difference(names, e).is_some(),
        _ => true,
    }
}
