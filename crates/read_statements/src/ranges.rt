//! What a `for` goes over.

ghost use Rattle.std.specs.Prelude.{◌≡◌, ◌<◌, ◌≤◌, ◌∷◌, [], IfOk, length};
ghost use Rattle.regent_grammar.specs.Reading.{read, reading};
ghost use Rattle.regent_grammar.specs.Rules.{◌⊳◌};
ghost use Rattle.regent_grammar.specs.Singles.{a_word, name};
ghost use Rattle.regent_grammar.specs.Statements.{begins_loop, demand, for_loop, loop_in, loop_to};
ghost use Rattle.regent_grammar.specs.Symbols.{come, comes, is_name, is_word};
ghost use Rattle.regent_lex.specs.declared.tables.Word.TheVariants as word;
ghost use Rattle.read_statements.specs.Ranges.{behind_range, looping};
ghost use Rattle.read_terms.specs.Gives.{Gives};
ghost use Rattle.regent_tree.specs.PlainProgram.{block_in, form_of};

use read_terms::{
    Stop, before_mark, before_word, comes_word, expression, is_name, is_word, take_mark, take_name,
    take_word, with_first,
};
use regent_grammar::{Mark, Terminal, Word};
use regent_tree::{Expr, Name, Stmt, What};
use std::alloc::Global;

/// What a `for` goes over: a region or an index space, or the numbers between two bounds.
#[derive(Drop)]
pub enum Range {
    In { name: Name, domain: Expr },
    To { name: Name, from: Expr, to: Expr },
}

/// A `for` over this range.
pub fn ranged(demanded: bool, range: Range, body: Vec<Stmt>) -> What
    ensures { form_of result ≡ looping range (block_in body.items) demanded }
{
    match range {
        Range::In { name, domain } => What::for_in(demanded, name, domain, body),
        Range::To { name, from, to } => What::for_to(demanded, name, from, to, body),
    }
}

/// The name of a loop's variable.
#[tactic(auto, unfolding(regent_grammar::proofs::Opening::reading))]
fn loop_name(alloc: Global, terminals: &[Terminal]) -> Result<(Name, &[Terminal]), Stop<'_>>
    ensures same { Gives (λ x. read x.0 x.1.now) result (reading (a_word word.For ⊳ name) terminals.now) }
    ensures shorter { IfOk result (λ x. length x.1.now < length terminals.now) }
{
    let rest = take_word(terminals, Word::For)?;
    take_name(alloc, rest)
}

/// A `for` over a region or an index space, up to its body.
#[tactic(auto, unfolding(regent_grammar::proofs::Opening::reading, regent_grammar::specs::Statements::loop_in), using(crate::proofs::Lengths::expression_less))]
fn range_in(alloc: Global, terminals: &[Terminal]) -> Result<(Range, &[Terminal]), Stop<'_>>
    ensures same { Gives (λ x. reading (behind_range x.0) x.1.now) result (reading loop_in terminals.now) }
    ensures no_longer { IfOk result (λ x. length x.1.now ≤ length terminals.now) }
{
    let (name, rest) = before_word(loop_name(alloc, terminals), Word::In)?;
    let ((name, domain), rest) = with_first(name, expression(alloc, rest))?;
    Ok((Range::In { name, domain }, rest))
}

/// A `for` over the numbers between two bounds, up to its body.
#[tactic(auto, unfolding(regent_grammar::proofs::Opening::reading, regent_grammar::specs::Statements::loop_to), using(crate::proofs::Lengths::expression_less))]
fn range_to(alloc: Global, terminals: &[Terminal]) -> Result<(Range, &[Terminal]), Stop<'_>>
    ensures same { Gives (λ x. reading (behind_range x.0) x.1.now) result (reading loop_to terminals.now) }
    ensures no_longer { IfOk result (λ x. length x.1.now ≤ length terminals.now) }
{
    let (name, rest) = before_mark(loop_name(alloc, terminals), Mark::Assign)?;
    let from = before_mark(expression(alloc, rest), Mark::Comma);
    let (begin, rest) = with_first(name, from)?;
    let ((begin, to), rest) = with_first(begin, expression(alloc, rest))?;
    let (name, from) = begin;
    Ok((Range::To { name, from, to }, rest))
}

/// Whether a name and `in` come next.
fn comes_name_in(terminals: &[Terminal]) -> bool
    ensures { result ≡ come (is_name ∷ is_word word.In ∷ []) terminals.now }
{
    match terminals {
        [] => false,
        [next, rest @ ..] => is_name(&next.symbol) && comes_word(rest, Word::In),
    }
}

/// Whether a `for` over a region or an index space comes next.
fn comes_range_in(terminals: &[Terminal]) -> bool
    ensures { result ≡ come (is_word word.For ∷ is_name ∷ is_word word.In ∷ []) terminals.now }
{
    match terminals {
        [] => false,
        [next, rest @ ..] => is_word(&next.symbol, Word::For) && comes_name_in(rest),
    }
}

/// A `for`, up to its body.
#[tactic(auto, unfolding(regent_grammar::proofs::Opening::reading, regent_grammar::specs::Statements::for_loop), using(crate::proofs::Lengths::expression_less))]
pub fn take_range(alloc: Global, terminals: &[Terminal]) -> Result<(Range, &[Terminal]), Stop<'_>>
    ensures same { Gives (λ x. reading (behind_range x.0) x.1.now) result (reading for_loop terminals.now) }
    ensures no_longer { IfOk result (λ x. length x.1.now ≤ length terminals.now) }
{
    if comes_range_in(terminals) {
        range_in(alloc, terminals)
    } else {
        range_to(alloc, terminals)
    }
}

/// Whether `__demand(__index_launch)` stands before the loop.
#[tactic(auto, unfolding(regent_grammar::proofs::Opening::reading, regent_grammar::specs::Statements::demand, regent_grammar::specs::Singles::in_parentheses))]
pub fn demand(terminals: &[Terminal]) -> Result<(bool, &[Terminal]), Stop<'_>>
    ensures same { Gives (λ x. read x.0 x.1.now) result (reading demand terminals.now) }
    ensures no_longer { IfOk result (λ x. length x.1.now ≤ length terminals.now) }
{
    if comes_word(terminals, Word::Demand) {
        let rest = take_word(terminals, Word::Demand)?;
        let rest = take_mark(rest, Mark::Open)?;
        let rest = take_word(rest, Word::IndexLaunch)?;
        let rest = take_mark(rest, Mark::Close)?;
        Ok((true, rest))
    } else {
        Ok((false, terminals))
    }
}

/// Whether a `for` comes next, or `__demand` before one.
pub fn comes_loop(terminals: &[Terminal]) -> bool
    ensures { result ≡ comes begins_loop terminals.now }
{
    match terminals {
        [] => false,
        [next, ..] => is_word(&next.symbol, Word::Demand) || is_word(&next.symbol, Word::For),
    }
}
