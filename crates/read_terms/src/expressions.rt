//! Expressions.

ghost use Rattle.std.specs.Prelude.{◌≡◌, ◌<◌, ◌∷◌, [], IfOk, length, map};
ghost use Rattle.regent_grammar.specs.Expressions.{expression, is_operator, is_sign, link, prefix};
ghost use Rattle.regent_grammar.specs.Expressions.{primary, a_sign, an_operator, begins_step, field_step, place_step, step, steps};
ghost use Rattle.regent_grammar.specs.Reading.{read, reading};
ghost use Rattle.regent_grammar.specs.Rules.{gives, many, when◌then◌else◌, ◌⊳◌};
ghost use Rattle.regent_grammar.specs.Singles.{a_mark, arguments, separated};
ghost use Rattle.regent_grammar.specs.Symbols.{comes, is_mark};
ghost use Rattle.regent_lex.specs.declared.tables.Mark.TheVariants as mark;
ghost use Rattle.read_terms.specs.Gives.{Gives, with_front};
ghost use Rattle.read_terms.specs.Heads.{closed};
ghost use Rattle.read_terms.specs.Levels.{operator_at, rule_at};
ghost use Rattle.read_terms.specs.Nodes.{joined_of, stepped_of};
ghost use Rattle.regent_tree.specs.Plain.{expression_of};

use crate::ahead::comes_mark;
use crate::heads::{Head, primary_head};
use crate::nodes::{called, chained, prefixed, stepped, wrapped};
use crate::operators::{Level, operator_at, sign_of, tighter};
use crate::stop::Stop;
use crate::take::{before_mark, is_mark, take_mark, take_name, with_first};
use plain_values::Sequence;
use regent_grammar::{Mark, Terminal};
use regent_tree::{Expr, Link, Operator, Sign, Step};
use std::alloc::Global;

/// Whether a prefix comes next.
fn comes_sign(terminals: &[Terminal]) -> bool
    ensures { result ≡ comes is_sign terminals.now }
{
    match terminals {
        [] => false,
        [next, ..] => sign_of(&next.symbol).is_some(),
    }
}

/// A prefix.
#[tactic(auto, unfolding(regent_grammar::proofs::Opening::reading, regent_grammar::specs::Expressions::a_sign))]
fn sign(terminals: &[Terminal]) -> Result<(Sign, &[Terminal]), Stop<'_>>
    ensures { Gives (λ x. read x.0 x.1.now) result (reading a_sign terminals.now) }
{
    match terminals {
        [] => Err(Stop::At(terminals)),
        [next, rest @ ..] => match sign_of(&next.symbol) {
            None => Err(Stop::At(terminals)),
            Some(sign) => Ok((sign, rest)),
        },
    }
}

/// As many prefixes as come.
fn signs(alloc: Global, terminals: &[Terminal]) -> Result<(Sequence<Sign>, &[Terminal]), Stop<'_>>
    ensures { Gives (λ x. read x.0 x.1.now) result (reading (many (comes is_sign) a_sign) terminals.now) }
{
    let mut signs = Sequence::new(alloc);
    let mut rest = terminals;
    while comes_sign(rest) {
        let (sign, after) = sign(rest)?;
        signs.push(sign)?;
        rest = after;
    }
    Ok((signs, rest))
}

/// Whether an operator of this level comes next.
fn comes_operator(level: Level, terminals: &[Terminal]) -> bool
    ensures { result ≡ comes (is_operator (operator_at level)) terminals.now }
{
    match terminals {
        [] => false,
        [next, ..] => operator_at(level, &next.symbol).is_some(),
    }
}

/// An operator of this level.
#[tactic(auto, unfolding(regent_grammar::proofs::Opening::reading, regent_grammar::specs::Expressions::an_operator))]
fn operator(level: Level, terminals: &[Terminal]) -> Result<(Operator, &[Terminal]), Stop<'_>>
    ensures same { Gives (λ x. read x.0 x.1.now) result (reading (an_operator (operator_at level)) terminals.now) }
    ensures shorter { IfOk result (λ x. length x.1.now < length terminals.now) }
{
    match terminals {
        [] => Err(Stop::At(terminals)),
        [next, rest @ ..] => match operator_at(level, &next.symbol) {
            None => Err(Stop::At(terminals)),
            Some(operator) => Ok((operator, rest)),
        },
    }
}

/// Whether a step of an access comes next.
fn comes_step(terminals: &[Terminal]) -> bool
    ensures { result ≡ comes begins_step terminals.now }
{
    match terminals {
        [] => false,
        [next, ..] => is_mark(&next.symbol, Mark::Dot) || is_mark(&next.symbol, Mark::OpenSquare),
    }
}

/// An expression.
#[cycle(expression)]
#[tactic(auto, unfolding(regent_grammar::specs::Expressions::expression), using(regent_grammar::proofs::ReadingLaws::used))]
pub fn expression(alloc: Global, terminals: &[Terminal]) -> Result<(Expr, &[Terminal]), Stop<'_>>
    ensures { Gives (λ x. read (expression_of x.0) x.1.now) result (reading expression terminals.now) }
{
    chain(alloc, Level::Disjunction, terminals)
}

/// A chain of this level.
#[cycle(expression)]
#[tactic(auto, unfolding(regent_grammar::proofs::Opening::reading, regent_grammar::specs::Expressions::chain), using(crate::proofs::Lengths::chain_rest))]
fn chain(
    alloc: Global,
    level: Level,
    terminals: &[Terminal],
) -> Result<(Expr, &[Terminal]), Stop<'_>>
    ensures { Gives (λ x. read (expression_of x.0) x.1.now) result (reading (rule_at level) terminals.now) }
{
    match tighter(level) {
        None => prefix(alloc, terminals),
        Some(members) => {
            let (first, rest) = chain(alloc, members, terminals)?;
            let links = links(alloc, level, members, rest);
            let ((first, links), rest) = with_first(first, links)?;
            Ok((chained(alloc, first, links)?, rest))
        }
    }
}

/// As many operators of this level as come, each with a chain of tighter ones behind it.
#[cycle(expression)]
fn links(
    alloc: Global,
    level: Level,
    members: Level,
    terminals: &[Terminal],
) -> Result<(Vec<Link>, &[Terminal]), Stop<'_>>
    ensures { Gives (λ x. read (map joined_of x.0.items) x.1.now) result
        (reading (many (comes (is_operator (operator_at level))) (link (operator_at level) (rule_at members))) terminals.now) }
{
    let mut links = Vec::new(alloc);
    let mut rest = terminals;
    while comes_operator(level, rest) {
        let (link, after) = next_link(alloc, level, members, rest)?;
        links.push(link)?;
        rest = after;
    }
    Ok((links, rest))
}

/// An operator of this level, and a chain of tighter ones behind it.
#[cycle(expression)]
#[tactic(auto, unfolding(regent_grammar::proofs::Opening::reading, regent_grammar::specs::Expressions::link), using(crate::proofs::Lengths::rank_bound))]
fn next_link(
    alloc: Global,
    level: Level,
    members: Level,
    terminals: &[Terminal],
) -> Result<(Link, &[Terminal]), Stop<'_>>
    ensures { Gives (λ x. read (joined_of x.0) x.1.now) result
        (reading (link (operator_at level) (rule_at members)) terminals.now) }
{
    let (operator, rest) = operator(level, terminals)?;
    let (operand, rest) = chain(alloc, members, rest)?;
    Ok((Link { operator, operand }, rest))
}

/// A primary behind prefixes.
#[cycle(expression)]
#[tactic(auto, unfolding(regent_grammar::proofs::Opening::reading, regent_grammar::specs::Expressions::prefix), using(crate::proofs::Lengths::signs_rest))]
fn prefix(alloc: Global, terminals: &[Terminal]) -> Result<(Expr, &[Terminal]), Stop<'_>>
    ensures { Gives (λ x. read (expression_of x.0) x.1.now) result (reading prefix terminals.now) }
{
    let (signs, rest) = signs(alloc, terminals)?;
    let (inner, rest) = primary(alloc, rest)?;
    Ok((prefixed(alloc, signs, inner)?, rest))
}

/// A primary.
#[cycle(expression)]
#[tactic(auto, unfolding(regent_grammar::proofs::Opening::reading))]
fn primary(alloc: Global, terminals: &[Terminal]) -> Result<(Expr, &[Terminal]), Stop<'_>>
    ensures { Gives (λ x. read (expression_of x.0) x.1.now) result (reading primary terminals.now) }
{
    let (head, rest) = primary_head(alloc, terminals)?;
    match head {
        Head::Whole(whole) => Ok((whole, rest)),
        Head::Call(name) => {
            let (args, rest) = arguments(alloc, rest)?;
            Ok((called(name, args), rest))
        }
        Head::Access(name) => {
            let (steps, rest) = steps(alloc, rest)?;
            Ok((stepped(name, steps), rest))
        }
        Head::Wrapped(wrap) => {
            let (inner, rest) = closed(alloc, rest)?;
            Ok((wrapped(alloc, wrap, inner)?, rest))
        }
    }
}

/// An expression and the parenthesis behind it.
#[cycle(expression)]
#[tactic(auto, unfolding(regent_grammar::proofs::Opening::reading))]
fn closed(alloc: Global, terminals: &[Terminal]) -> Result<(Expr, &[Terminal]), Stop<'_>>
    ensures { Gives (λ x. read (expression_of x.0) x.1.now) result (reading closed terminals.now) }
{
    before_mark(expression(alloc, terminals), Mark::Close)
}

/// The arguments of a call, in parentheses.
#[cycle(expression)]
#[tactic(auto, unfolding(regent_grammar::proofs::Opening::reading, regent_grammar::specs::Singles::arguments))]
pub fn arguments(
    alloc: Global,
    terminals: &[Terminal],
) -> Result<(Vec<Expr>, &[Terminal]), Stop<'_>>
    ensures { Gives (λ x. read (map expression_of x.0.items) x.1.now) result
        (reading (arguments expression) terminals.now) }
{
    let rest = take_mark(terminals, Mark::Open)?;
    before_mark(listed(alloc, rest), Mark::Close)
}

/// The arguments of a call, of which there may be none.
#[cycle(expression)]
#[tactic(auto, unfolding(regent_grammar::proofs::Opening::reading, regent_grammar::specs::Singles::separated), using(crate::proofs::Lengths::expression_rest))]
fn listed(alloc: Global, terminals: &[Terminal]) -> Result<(Vec<Expr>, &[Terminal]), Stop<'_>>
    ensures { Gives (λ x. read (map expression_of x.0.items) x.1.now) result
        (reading (when comes (is_mark mark.Close) then gives [] else separated expression) terminals.now) }
{
    if comes_mark(terminals, Mark::Close) {
        Ok((Vec::new(alloc), terminals))
    } else {
        let (first, rest) = expression(alloc, terminals)?;
        more_arguments(alloc, vec![in alloc; first]?, rest)
    }
}

/// Further arguments, each behind a comma.
#[cycle(expression)]
pub fn more_arguments(
    alloc: Global,
    front: Vec<Expr>,
    terminals: &[Terminal],
) -> Result<(Vec<Expr>, &[Terminal]), Stop<'_>>
    ensures { Gives (λ x. read (map expression_of x.0.items) x.1.now) result
        (with_front (map expression_of front.items) (reading (many (comes (is_mark mark.Comma)) (a_mark mark.Comma ⊳ expression)) terminals.now)) }
{
    let mut args = front;
    let mut rest = terminals;
    while comes_mark(rest, Mark::Comma) {
        let (arg, after) = next_argument(alloc, rest)?;
        args.push(arg)?;
        rest = after;
    }
    Ok((args, rest))
}

/// An argument behind a comma.
#[cycle(expression)]
#[tactic(auto, unfolding(regent_grammar::proofs::Opening::reading))]
fn next_argument(alloc: Global, terminals: &[Terminal]) -> Result<(Expr, &[Terminal]), Stop<'_>>
    ensures { Gives (λ x. read (expression_of x.0) x.1.now) result
        (reading (a_mark mark.Comma ⊳ expression) terminals.now) }
{
    let rest = take_mark(terminals, Mark::Comma)?;
    expression(alloc, rest)
}

/// The steps of an access.
#[cycle(expression)]
pub fn steps(alloc: Global, terminals: &[Terminal]) -> Result<(Vec<Step>, &[Terminal]), Stop<'_>>
    ensures { Gives (λ x. read (map stepped_of x.0.items) x.1.now) result (reading steps terminals.now) }
{
    let mut steps = Vec::new(alloc);
    let mut rest = terminals;
    while comes_step(rest) {
        let (step, after) = step(alloc, rest)?;
        steps.push(step)?;
        rest = after;
    }
    Ok((steps, rest))
}

/// A step of an access.
#[cycle(expression)]
#[tactic(auto, unfolding(regent_grammar::proofs::Opening::reading, regent_grammar::specs::Expressions::step))]
fn step(alloc: Global, terminals: &[Terminal]) -> Result<(Step, &[Terminal]), Stop<'_>>
    ensures { Gives (λ x. read (stepped_of x.0) x.1.now) result (reading step terminals.now) }
{
    if comes_mark(terminals, Mark::Dot) {
        field_step(alloc, terminals)
    } else {
        place_step(alloc, terminals)
    }
}

/// A field behind a dot.
#[tactic(auto, unfolding(regent_grammar::proofs::Opening::reading, regent_grammar::specs::Expressions::field_step))]
fn field_step(alloc: Global, terminals: &[Terminal]) -> Result<(Step, &[Terminal]), Stop<'_>>
    ensures { Gives (λ x. read (stepped_of x.0) x.1.now) result (reading field_step terminals.now) }
{
    let rest = take_mark(terminals, Mark::Dot)?;
    let (field, rest) = take_name(alloc, rest)?;
    Ok((Step::Field(field), rest))
}

/// A place in square brackets.
#[cycle(expression)]
#[tactic(auto, unfolding(regent_grammar::proofs::Opening::reading, regent_grammar::specs::Expressions::place_step))]
fn place_step(alloc: Global, terminals: &[Terminal]) -> Result<(Step, &[Terminal]), Stop<'_>>
    ensures { Gives (λ x. read (stepped_of x.0) x.1.now) result (reading place_step terminals.now) }
{
    let rest = take_mark(terminals, Mark::OpenSquare)?;
    let (place, rest) = before_mark(expression(alloc, rest), Mark::CloseSquare)?;
    Ok((Step::At(place), rest))
}
