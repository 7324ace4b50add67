//! Which arguments share no point at different colours.

ghost use Rattle.std.specs.Prelude.{◌≡◌, ◌++◌, ◌<◌, ◌^◌, IfOk, None, OnOk, drop, get_or, length};
ghost use Rattle.regent_tree.specs.Lookup.{type_named};
ghost use Rattle.regent_tree.specs.Plain.{expression_of, expressions_in, steps_in};
ghost use Rattle.regent_tree.specs.Syntax.{access_expr};
ghost use Rattle.check_rules.specs.launches.Views.{are_apart, pairs_apart, pairs_with, parent_of, region_of, term_across, terms_across};

use check_expressions::Scope;
use constraint_check::Facts;
use plain_values::Sequence;
use program_tables::Names;
use regent_tree::{Expr, Name, StaticType, Step, Term};
use std::alloc::{AllocError, Global};

/// The region that a name stands for.
fn region_named(names: &Names, name: &Name) -> Option<Term>
    ensures { result ≡ region_of (type_named names.now name.now) }
{
    match &names.bound_to(name)?.static_type {
        StaticType::Region { term, .. } => Some(*term),
        _ => None,
    }
}

/// The region that the partition divides for which a name stands.
fn parent_named(names: &Names, name: &Name) -> Option<Term>
    ensures { result ≡ parent_of (type_named names.now name.now) }
{
    match &names.bound_to(name)?.static_type {
        StaticType::Partition { parent, .. } => Some(Term::Name(*parent)),
        _ => None,
    }
}

/// The region in which the points of a name or of an element lie at any colour.
fn term_of_access(names: &Names, name: &Name, steps: &[Step]) -> Option<Term>
    ensures { result ≡ term_across names.now (access_expr name.now (steps_in steps.now)) }
{
    match steps {
        [] => region_named(names, name),
        [Step::At(_)] => parent_named(names, name),
        [Step::Field(_), ..] | [Step::At(_), Step::Field(_), ..] | [Step::At(_), Step::At(_), ..] =>
            None,
    }
}

/// The region in which an argument's points lie at any colour.
fn term_across(names: &Names, e: &Expr) -> Option<Term>
    ensures { result ≡ term_across names.now (expression_of e.now) }
{
    match e {
        Expr::Access { name, steps } => term_of_access(names, name, steps.as_slice()),
        _ => None,
    }
}

/// Those of all arguments.
pub fn terms_across(
    alloc: Global,
    scope: &Scope,
    args: &[Expr],
) -> Result<Vec<Option<Term>>, AllocError>
    ensures { IfOk result (λ terms. terms.items ≡ terms_across scope.now.names (expressions_in args.now)) }
{
    let mut terms = Vec::new(alloc);
    for arg in args {
        terms.push(term_across(scope.names(), arg))?;
    }
    Ok(terms)
}

fn are_apart(facts: &Facts, one: &Option<Term>, other: &Option<Term>) -> bool
    ensures { result ≡ are_apart facts.now one.now other.now }
{
    match (one, other) {
        (Some(one), Some(other)) => facts.disjoint(one, other),
        _ => false,
    }
}

/// The pairs of an argument with itself and those behind it.
fn add_pairs(
    pairs: &mut Sequence<(u32, u32)>,
    facts: &Facts,
    terms: &[Option<Term>],
    first: usize,
) -> Result<(), AllocError>
    requires room { length terms.now < 2 ^ 32 }
    requires there { first < length terms.now }
    ensures { OnOk result (pairs.new ≡ pairs.old ++ pairs_with facts.now first (get_or terms.now first None) first (drop first terms.now)) }
{
    let one = &terms[first];
    for second in first..terms.len() {
        if are_apart(facts, one, &terms[second]) {
            pairs.push((first as u32, second as u32))?;
        }
    }
    Ok(())
}

/// The pairs of arguments that are known to share no point.
pub fn pairs_apart(
    alloc: Global,
    facts: &Facts,
    terms: &[Option<Term>],
) -> Result<Sequence<(u32, u32)>, AllocError>
    requires { length terms.now < 2 ^ 32 }
    ensures { IfOk result (λ pairs. pairs ≡ pairs_apart facts.now 0 terms.now) }
{
    let mut pairs = Sequence::new(alloc);
    for first in 0..terms.len() {
        add_pairs(&mut pairs, facts, terms, first)?;
    }
    Ok(pairs)
}
