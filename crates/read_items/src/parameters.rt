//! Lists of parameters.

ghost use Rattle.std.specs.Prelude.{◌≡◌, [], ◌∷◌};
ghost use Rattle.regent_grammar.specs.Reading.{read, reading};
ghost use Rattle.regent_grammar.specs.Rules.{many, ◌⊳◌};
ghost use Rattle.regent_grammar.specs.Singles.{a_mark, arguments, maybe_listed, separated};
ghost use Rattle.regent_grammar.specs.Symbols.{comes, is_mark};
ghost use Rattle.regent_grammar.specs.Types.{parameter};
ghost use Rattle.regent_lex.specs.declared.tables.Mark.TheVariants as mark;
ghost use Rattle.read_terms.specs.Gives.{Gives, with_front};

use plain_values::Sequence;
use read_terms::{Stop, before_mark, comes_mark, parameter, take_mark};
use regent_grammar::{Mark, Terminal};
use regent_tree::Param;
use std::alloc::Global;

/// A parameter behind a comma.
#[tactic(auto, unfolding(regent_grammar::proofs::Opening::reading))]
fn next_parameter(alloc: Global, terminals: &[Terminal]) -> Result<(Param, &[Terminal]), Stop<'_>>
    ensures { Gives (λ x. read x.0 x.1.now) result
        (reading (a_mark mark.Comma ⊳ parameter) terminals.now) }
{
    let rest = take_mark(terminals, Mark::Comma)?;
    parameter(alloc, rest)
}

/// The first of some parameters, and those behind commas.
fn more_parameters(
    alloc: Global,
    first: Param,
    terminals: &[Terminal],
) -> Result<(Sequence<Param>, &[Terminal]), Stop<'_>>
    ensures { Gives (λ x. read x.0 x.1.now) result
        (with_front (first ∷ []) (reading (many (comes (is_mark mark.Comma)) (a_mark mark.Comma ⊳ parameter)) terminals.now)) }
{
    let mut parameters = Sequence::new(alloc);
    parameters.push(first)?;
    let mut rest = terminals;
    while comes_mark(rest, Mark::Comma) {
        let (parameter, after) = next_parameter(alloc, rest)?;
        parameters.push(parameter)?;
        rest = after;
    }
    Ok((parameters, rest))
}

/// Parameters, with commas between them.
#[tactic(auto, unfolding(regent_grammar::proofs::Opening::reading, regent_grammar::specs::Singles::separated))]
fn parameters(
    alloc: Global,
    terminals: &[Terminal],
) -> Result<(Sequence<Param>, &[Terminal]), Stop<'_>>
    ensures { Gives (λ x. read x.0 x.1.now) result
        (reading (separated parameter) terminals.now) }
{
    let (first, rest) = parameter(alloc, terminals)?;
    more_parameters(alloc, first, rest)
}

/// The parameters of a field space, where there are some.
#[tactic(auto, unfolding(regent_grammar::proofs::Opening::reading, regent_grammar::specs::Singles::maybe_listed, regent_grammar::specs::Singles::in_parentheses))]
pub fn space_parameters(
    alloc: Global,
    terminals: &[Terminal],
) -> Result<(Sequence<Param>, &[Terminal]), Stop<'_>>
    ensures { Gives (λ x. read x.0 x.1.now) result
        (reading (maybe_listed parameter) terminals.now) }
{
    if comes_mark(terminals, Mark::Open) {
        let rest = take_mark(terminals, Mark::Open)?;
        before_mark(parameters(alloc, rest), Mark::Close)
    } else {
        Ok((Sequence::new(alloc), terminals))
    }
}

/// The parameters of a task, in parentheses.
#[tactic(auto, unfolding(regent_grammar::proofs::Opening::reading, regent_grammar::specs::Singles::arguments))]
pub fn task_parameters(
    alloc: Global,
    terminals: &[Terminal],
) -> Result<(Sequence<Param>, &[Terminal]), Stop<'_>>
    ensures { Gives (λ x. read x.0 x.1.now) result
        (reading (arguments parameter) terminals.now) }
{
    let rest = take_mark(terminals, Mark::Open)?;
    if comes_mark(rest, Mark::Close) {
        let rest = take_mark(rest, Mark::Close)?;
        Ok((Sequence::new(alloc), rest))
    } else {
        before_mark(parameters(alloc, rest), Mark::Close)
    }
}
