//! Field spaces.

ghost use Rattle.std.specs.Prelude.{◌≡◌, ◌<◌, [], ◌∷◌, IfOk, cond, Some, None, length};
ghost use Rattle.regent_grammar.specs.Items.{another_field, field_space, is_separator, separator};
ghost use Rattle.regent_grammar.specs.Items.{separator_of, some_fields};
ghost use Rattle.regent_grammar.specs.Reading.{read, reading};
ghost use Rattle.regent_grammar.specs.Rules.{gives, many, when◌then◌else◌, ◌⊲◌, ◌⊳◌};
ghost use Rattle.regent_grammar.specs.Singles.{a_mark, a_word, name};
ghost use Rattle.regent_grammar.specs.Symbols.{comes, is_mark};
ghost use Rattle.regent_grammar.specs.Types.{parameter};
ghost use Rattle.regent_lex.specs.declared.tables.Mark.TheVariants as mark;
ghost use Rattle.regent_lex.specs.declared.tables.Word.TheVariants as word;
ghost use Rattle.read_terms.specs.Gives.{Gives, with_front};
ghost use Rattle.regent_tree.specs.Syntax.{space_item};

use crate::parameters::space_parameters;
use plain_values::Sequence;
use read_terms::{Stop, before_mark, comes_mark, parameter, take_mark, take_name, take_word};
use regent_grammar::{Mark, Symbol, Terminal, Word};
use regent_tree::{FieldSpace, Name, Param};
use std::alloc::Global;

/// Whether a symbol separates fields.
fn is_separator(symbol: &Symbol) -> bool
    ensures listed { result ≡ is_separator symbol.now }
    ensures table { separator_of symbol.now ≡ cond result (Some tt) None }
{
    match symbol {
        Symbol::Mark(Mark::Comma) => true,
        Symbol::Mark(Mark::Semicolon) => true,
        _ => false,
    }
}

/// What comes after a separator of fields.
#[tactic(auto, unfolding(regent_grammar::proofs::Opening::reading, regent_grammar::specs::Items::separator))]
fn take_separator(terminals: &[Terminal]) -> Result<&[Terminal], Stop<'_>>
    ensures same { Gives (λ rest. read tt rest.now) result (reading separator terminals.now) }
    ensures shorter { IfOk result (λ rest. length rest.now < length terminals.now) }
{
    match terminals {
        [] => Err(Stop::At(terminals)),
        [next, rest @ ..] => {
            if is_separator(&next.symbol) {
                Ok(rest)
            } else {
                Err(Stop::At(terminals))
            }
        }
    }
}

/// Whether a separator of fields comes next.
fn comes_separator(terminals: &[Terminal]) -> bool
    ensures { result ≡ comes is_separator terminals.now }
{
    match terminals {
        [] => false,
        [next, ..] => is_separator(&next.symbol),
    }
}

/// Whether a separator comes next, and no brace that closes the list behind it.
fn comes_another_field(terminals: &[Terminal]) -> bool
    ensures { result ≡ another_field terminals.now }
{
    match terminals {
        [] => false,
        [next, rest @ ..] => is_separator(&next.symbol) && !comes_mark(rest, Mark::CloseBrace),
    }
}

/// A field behind a separator.
#[tactic(auto, unfolding(regent_grammar::proofs::Opening::reading))]
fn next_field(alloc: Global, terminals: &[Terminal]) -> Result<(Param, &[Terminal]), Stop<'_>>
    ensures { Gives (λ x. read x.0 x.1.now) result
        (reading (separator ⊳ parameter) terminals.now) }
{
    let rest = take_separator(terminals)?;
    parameter(alloc, rest)
}

/// The first of some fields, and those behind separators.
fn more_fields(
    alloc: Global,
    first: Param,
    terminals: &[Terminal],
) -> Result<(Sequence<Param>, &[Terminal]), Stop<'_>>
    ensures { Gives (λ x. read x.0 x.1.now) result
        (with_front (first ∷ []) (reading (many another_field (separator ⊳ parameter)) terminals.now)) }
{
    let mut fields = Sequence::new(alloc);
    fields.push(first)?;
    let mut rest = terminals;
    while comes_another_field(rest) {
        let (field, after) = next_field(alloc, rest)?;
        fields.push(field)?;
        rest = after;
    }
    Ok((fields, rest))
}

/// Fields, with separators between them and perhaps one behind them.
#[tactic(auto, unfolding(regent_grammar::proofs::Opening::reading, regent_grammar::specs::Items::some_fields))]
fn some_fields(
    alloc: Global,
    terminals: &[Terminal],
) -> Result<(Sequence<Param>, &[Terminal]), Stop<'_>>
    ensures { Gives (λ x. read x.0 x.1.now) result (reading some_fields terminals.now) }
{
    let (first, rest) = parameter(alloc, terminals)?;
    let (fields, rest) = more_fields(alloc, first, rest)?;
    if comes_separator(rest) {
        let rest = take_separator(rest)?;
        Ok((fields, rest))
    } else {
        Ok((fields, rest))
    }
}

/// The name of a field space.
#[tactic(auto, unfolding(regent_grammar::proofs::Opening::reading))]
fn space_name(alloc: Global, terminals: &[Terminal]) -> Result<(Name, &[Terminal]), Stop<'_>>
    ensures { Gives (λ x. read x.0 x.1.now) result (reading (a_word word.Fspace ⊳ name) terminals.now) }
{
    let rest = take_word(terminals, Word::Fspace)?;
    take_name(alloc, rest)
}

/// Fields, of which there may be none.
#[tactic(auto, unfolding(regent_grammar::proofs::Opening::reading))]
fn listed_fields(
    alloc: Global,
    terminals: &[Terminal],
) -> Result<(Sequence<Param>, &[Terminal]), Stop<'_>>
    ensures { Gives (λ x. read x.0 x.1.now) result
        (reading (when comes (is_mark mark.CloseBrace) then gives [] else some_fields) terminals.now) }
{
    if comes_mark(terminals, Mark::CloseBrace) {
        Ok((Sequence::new(alloc), terminals))
    } else {
        some_fields(alloc, terminals)
    }
}

/// The fields of a field space, in braces.
#[tactic(auto, unfolding(regent_grammar::proofs::Opening::reading))]
fn braced_fields(
    alloc: Global,
    terminals: &[Terminal],
) -> Result<(Sequence<Param>, &[Terminal]), Stop<'_>>
    ensures { Gives (λ x. read x.0 x.1.now) result
        (reading (a_mark mark.OpenBrace
        ⊳ (when comes (is_mark mark.CloseBrace) then gives [] else some_fields)
        ⊲ a_mark mark.CloseBrace) terminals.now) }
{
    let rest = take_mark(terminals, Mark::OpenBrace)?;
    before_mark(listed_fields(alloc, rest), Mark::CloseBrace)
}

/// A field space.
#[tactic(auto, unfolding(regent_grammar::proofs::Opening::reading, regent_grammar::specs::Items::field_space))]
pub fn field_space(
    alloc: Global,
    terminals: &[Terminal],
) -> Result<(FieldSpace, &[Terminal]), Stop<'_>>
    ensures { Gives (λ x. read (space_item x.0) x.1.now) result (reading field_space terminals.now) }
{
    let (name, rest) = space_name(alloc, terminals)?;
    let (params, rest) = space_parameters(alloc, rest)?;
    let (fields, rest) = braced_fields(alloc, rest)?;
    let space = FieldSpace {
        name,
        params,
        fields,
    };
    Ok((space, rest))
}
