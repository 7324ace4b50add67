//! Primaries, up to the first expression in them.

ghost use Rattle.std.specs.Prelude.{◌≡◌, ◌<◌, ◌∷◌, [], IfOk, MatchOption, None, Some, length};
ghost use Rattle.regent_grammar.specs.Expressions.{bracketed_conversion, call, cast};
ghost use Rattle.regent_grammar.specs.Expressions.{conversion, expression, is_literal, is_number};
ghost use Rattle.regent_grammar.specs.Expressions.{literal, literal_of, new_space, null_pointer};
ghost use Rattle.regent_grammar.specs.Expressions.{null_test, primary};
ghost use Rattle.regent_grammar.specs.Reading.{reading};
ghost use Rattle.regent_grammar.specs.Singles.{in_parentheses};
ghost use Rattle.regent_grammar.specs.Symbols.{comes};
ghost use Rattle.read_terms.specs.Gives.{Gives};
ghost use Rattle.read_terms.specs.Heads.{access_value, rest_of};
ghost use Rattle.regent_tree.specs.Plain.{expression_of};

use crate::ahead::{comes_mark, comes_name_before, comes_word};
use crate::stop::Stop;
use crate::take::{before_mark, take_mark, take_name, take_opening, take_word};
use crate::types::{kind, number, number_of, pointer};
use regent_grammar::{Mark, Symbol, Terminal, Word};
use regent_tree::{Expr, Kind, Name, NumberTerm, PointerTerm};
use std::alloc::Global;

/// What stands around an expression in parentheses.
#[derive(Drop)]
pub enum Wrap {
    Plain,
    Convert(NumberTerm),
    IsNull,
    Cast(PointerTerm),
    Space(Kind),
}

/// How a primary begins: it is whole, or arguments, steps or an expression and a parenthesis follow.
#[derive(Drop)]
pub enum Head {
    Whole(Expr),
    Call(Name),
    Access(Name),
    Wrapped(Wrap),
}

/// The expression that a symbol is.
fn literal_of(symbol: &Symbol) -> Option<Expr>
    ensures { MatchOption result (literal_of symbol.now ≡ None) (λ e. literal_of symbol.now ≡ Some (expression_of e)) }
{
    match symbol {
        Symbol::Number { value, width } => Some(Expr::Number {
            value: *value,
            width: *width,
        }),
        Symbol::Word(Word::True) => Some(Expr::Truth(true)),
        Symbol::Word(Word::False) => Some(Expr::Truth(false)),
        _ => None,
    }
}

fn is_literal(symbol: &Symbol) -> bool
    ensures { result ≡ is_literal symbol.now }
{
    match symbol {
        Symbol::Number { .. } | Symbol::Word(Word::True) | Symbol::Word(Word::False) => true,
        _ => false,
    }
}

/// Whether a number or a truth comes next.
fn comes_literal(terminals: &[Terminal]) -> bool
    ensures { result ≡ comes is_literal terminals.now }
{
    match terminals {
        [] => false,
        [next, ..] => is_literal(&next.symbol),
    }
}

/// Whether a number type comes next.
fn comes_number(terminals: &[Terminal]) -> bool
    ensures { result ≡ comes is_number terminals.now }
{
    match terminals {
        [] => false,
        [next, ..] => number_of(&next.symbol).is_some(),
    }
}

/// A number or a truth.
#[tactic(auto, unfolding(regent_grammar::proofs::Opening::reading, regent_grammar::specs::Expressions::literal))]
fn literal(terminals: &[Terminal]) -> Result<(Head, &[Terminal]), Stop<'_>>
    ensures same { Gives (λ x. reading (rest_of x.0) x.1.now) result (reading literal terminals.now) }
    ensures shorter { IfOk result (λ x. length x.1.now < length terminals.now) }
{
    match terminals {
        [] => Err(Stop::At(terminals)),
        [next, rest @ ..] => match literal_of(&next.symbol) {
            None => Err(Stop::At(terminals)),
            Some(literal) => Ok((Head::Whole(literal), rest)),
        },
    }
}

/// `(` of an expression in parentheses.
#[tactic(auto, unfolding(regent_grammar::proofs::Opening::reading, regent_grammar::specs::Singles::in_parentheses))]
fn opened(terminals: &[Terminal]) -> Result<(Head, &[Terminal]), Stop<'_>>
    ensures same { Gives (λ x. reading (rest_of x.0) x.1.now) result (reading (in_parentheses expression) terminals.now) }
    ensures shorter { IfOk result (λ x. length x.1.now < length terminals.now) }
{
    let rest = take_mark(terminals, Mark::Open)?;
    Ok((Head::Wrapped(Wrap::Plain), rest))
}

/// The name of a called task.
#[tactic(auto, unfolding(regent_grammar::proofs::Opening::reading, regent_grammar::specs::Expressions::call))]
fn call_head(alloc: Global, terminals: &[Terminal]) -> Result<(Head, &[Terminal]), Stop<'_>>
    ensures same { Gives (λ x. reading (rest_of x.0) x.1.now) result (reading call terminals.now) }
    ensures shorter { IfOk result (λ x. length x.1.now < length terminals.now) }
{
    let (name, rest) = take_name(alloc, terminals)?;
    Ok((Head::Call(name), rest))
}

/// A conversion: its type, and `(`.
#[tactic(auto, unfolding(regent_grammar::proofs::Opening::reading, regent_grammar::specs::Expressions::conversion, regent_grammar::specs::Singles::in_parentheses))]
fn conversion_head(terminals: &[Terminal]) -> Result<(Head, &[Terminal]), Stop<'_>>
    ensures same { Gives (λ x. reading (rest_of x.0) x.1.now) result (reading conversion terminals.now) }
    ensures shorter { IfOk result (λ x. length x.1.now < length terminals.now) }
{
    let (to, rest) = before_mark(number(terminals), Mark::Open)?;
    Ok((Head::Wrapped(Wrap::Convert(to)), rest))
}

/// A conversion whose type is in brackets: its type, and `(`.
#[tactic(auto, unfolding(regent_grammar::proofs::Opening::reading, regent_grammar::specs::Expressions::bracketed_conversion, regent_grammar::specs::Singles::in_parentheses))]
fn bracketed_head(terminals: &[Terminal]) -> Result<(Head, &[Terminal]), Stop<'_>>
    ensures same { Gives (λ x. reading (rest_of x.0) x.1.now) result (reading bracketed_conversion terminals.now) }
    ensures shorter { IfOk result (λ x. length x.1.now < length terminals.now) }
{
    let rest = take_mark(terminals, Mark::OpenSquare)?;
    let (to, rest) = before_mark(before_mark(number(rest), Mark::CloseSquare), Mark::Open)?;
    Ok((Head::Wrapped(Wrap::Convert(to)), rest))
}

/// `isnull` and `(`.
#[tactic(auto, unfolding(regent_grammar::proofs::Opening::reading, regent_grammar::specs::Expressions::null_test, regent_grammar::specs::Singles::in_parentheses))]
fn null_test_head(terminals: &[Terminal]) -> Result<(Head, &[Terminal]), Stop<'_>>
    ensures same { Gives (λ x. reading (rest_of x.0) x.1.now) result (reading null_test terminals.now) }
    ensures shorter { IfOk result (λ x. length x.1.now < length terminals.now) }
{
    let rest = take_word(terminals, Word::Isnull)?;
    let rest = take_mark(rest, Mark::Open)?;
    Ok((Head::Wrapped(Wrap::IsNull), rest))
}

/// A null pointer.
#[tactic(auto, unfolding(regent_grammar::proofs::Opening::reading, regent_grammar::specs::Expressions::null_pointer, regent_grammar::specs::Singles::in_parentheses), using(crate::proofs::Lengths::pointer_rest))]
fn null_pointer(alloc: Global, terminals: &[Terminal]) -> Result<(Head, &[Terminal]), Stop<'_>>
    ensures same { Gives (λ x. reading (rest_of x.0) x.1.now) result (reading null_pointer terminals.now) }
    ensures shorter { IfOk result (λ x. length x.1.now < length terminals.now) }
{
    let rest = take_word(terminals, Word::Null)?;
    let rest = take_mark(rest, Mark::Open)?;
    let (pointer, rest) = before_mark(pointer(alloc, rest), Mark::Close)?;
    Ok((Head::Whole(Expr::Null(pointer)), rest))
}

/// `dynamic_cast` with its pointer type, up to the expression.
#[tactic(auto, unfolding(regent_grammar::proofs::Opening::reading, regent_grammar::specs::Expressions::cast), using(crate::proofs::Lengths::pointer_rest))]
fn cast_head(alloc: Global, terminals: &[Terminal]) -> Result<(Head, &[Terminal]), Stop<'_>>
    ensures same { Gives (λ x. reading (rest_of x.0) x.1.now) result (reading cast terminals.now) }
    ensures shorter { IfOk result (λ x. length x.1.now < length terminals.now) }
{
    let rest = take_opening(terminals, Word::DynamicCast)?;
    let (pointer, rest) = before_mark(pointer(alloc, rest), Mark::Comma)?;
    Ok((Head::Wrapped(Wrap::Cast(pointer)), rest))
}

/// `ispace` with its kind, up to the expression.
#[tactic(auto, unfolding(regent_grammar::proofs::Opening::reading, regent_grammar::specs::Expressions::new_space))]
fn space_head(terminals: &[Terminal]) -> Result<(Head, &[Terminal]), Stop<'_>>
    ensures same { Gives (λ x. reading (rest_of x.0) x.1.now) result (reading new_space terminals.now) }
    ensures shorter { IfOk result (λ x. length x.1.now < length terminals.now) }
{
    let rest = take_opening(terminals, Word::Ispace)?;
    let (kind, rest) = before_mark(kind(rest), Mark::Comma)?;
    Ok((Head::Wrapped(Wrap::Space(kind)), rest))
}

/// The name of an access.
#[tactic(auto, unfolding(regent_grammar::proofs::Opening::reading, regent_grammar::specs::Expressions::access))]
fn access_head(alloc: Global, terminals: &[Terminal]) -> Result<(Head, &[Terminal]), Stop<'_>>
    ensures same { Gives (λ x. reading (rest_of x.0) x.1.now) result (reading access_value terminals.now) }
    ensures shorter { IfOk result (λ x. length x.1.now < length terminals.now) }
{
    let (name, rest) = take_name(alloc, terminals)?;
    Ok((Head::Access(name), rest))
}

/// How the primary that comes next begins.
#[tactic(auto, unfolding(regent_grammar::proofs::Opening::reading, regent_grammar::specs::Expressions::primary))]
pub fn primary_head(alloc: Global, terminals: &[Terminal]) -> Result<(Head, &[Terminal]), Stop<'_>>
    ensures same { Gives (λ x. reading (rest_of x.0) x.1.now) result (reading primary terminals.now) }
    ensures shorter { IfOk result (λ x. length x.1.now < length terminals.now) }
{
    if comes_literal(terminals) {
        literal(terminals)
    } else if comes_mark(terminals, Mark::Open) {
        opened(terminals)
    } else if comes_name_before(terminals, Mark::Open) {
        call_head(alloc, terminals)
    } else if comes_number(terminals) {
        conversion_head(terminals)
    } else if comes_mark(terminals, Mark::OpenSquare) {
        bracketed_head(terminals)
    } else if comes_word(terminals, Word::Isnull) {
        null_test_head(terminals)
    } else if comes_word(terminals, Word::Null) {
        null_pointer(alloc, terminals)
    } else if comes_word(terminals, Word::DynamicCast) {
        cast_head(alloc, terminals)
    } else if comes_word(terminals, Word::Ispace) {
        space_head(terminals)
    } else {
        access_head(alloc, terminals)
    }
}
