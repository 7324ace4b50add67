//! Names of fields.

ghost use Rattle.std.specs.Prelude.{◌≡◌, [], ◌∷◌, IfOk};
ghost use Rattle.regent_grammar.specs.Reading.{read, reading};
ghost use Rattle.regent_grammar.specs.Rules.{many, ◌⊳◌};
ghost use Rattle.regent_grammar.specs.Singles.{a_mark, name, names};
ghost use Rattle.regent_grammar.specs.Statements.{fields};
ghost use Rattle.regent_grammar.specs.Symbols.{comes, is_mark};
ghost use Rattle.regent_lex.specs.declared.tables.Mark.TheVariants as mark;
ghost use Rattle.read_terms.specs.Gives.{Gives, with_front};

use crate::ahead::comes_mark;
use crate::stop::Stop;
use crate::take::{before_mark, take_mark, take_name};
use plain_values::Sequence;
use regent_grammar::{Mark, Terminal};
use regent_tree::Name;
use std::alloc::{AllocError, Global};

/// A name behind a comma.
#[tactic(auto, unfolding(regent_grammar::proofs::Opening::reading))]
pub fn next_name(alloc: Global, terminals: &[Terminal]) -> Result<(Name, &[Terminal]), Stop<'_>>
    ensures { Gives (λ x. read x.0 x.1.now) result
        (reading (a_mark mark.Comma ⊳ name) terminals.now) }
{
    let rest = take_mark(terminals, Mark::Comma)?;
    take_name(alloc, rest)
}

/// The first of some names, and those behind commas.
fn more_names(
    alloc: Global,
    first: Name,
    terminals: &[Terminal],
) -> Result<(Sequence<Name>, &[Terminal]), Stop<'_>>
    ensures { Gives (λ x. read x.0 x.1.now) result
        (with_front (first ∷ []) (reading (many (comes (is_mark mark.Comma)) (a_mark mark.Comma ⊳ name)) terminals.now)) }
{
    let mut names = Sequence::new(alloc);
    names.push(first)?;
    let mut rest = terminals;
    while comes_mark(rest, Mark::Comma) {
        let (name, after) = next_name(alloc, rest)?;
        names.push(name)?;
        rest = after;
    }
    Ok((names, rest))
}

/// Names, with commas between them.
#[tactic(auto, unfolding(regent_grammar::proofs::Opening::reading, regent_grammar::specs::Singles::names))]
fn names(alloc: Global, terminals: &[Terminal]) -> Result<(Sequence<Name>, &[Terminal]), Stop<'_>>
    ensures { Gives (λ x. read x.0 x.1.now) result
        (reading names terminals.now) }
{
    let (first, rest) = take_name(alloc, terminals)?;
    more_names(alloc, first, rest)
}

/// A list of one name.
fn one_name(alloc: Global, name: Name) -> Result<Sequence<Name>, AllocError>
    ensures { IfOk result (λ names. names ≡ name ∷ []) }
{
    let mut names = Sequence::new(alloc);
    names.push(name)?;
    Ok(names)
}

/// A field's name, or names of fields in braces.
#[tactic(auto, unfolding(regent_grammar::proofs::Opening::reading, regent_grammar::specs::Statements::fields))]
pub fn fields(
    alloc: Global,
    terminals: &[Terminal],
) -> Result<(Sequence<Name>, &[Terminal]), Stop<'_>>
    ensures { Gives (λ x. read x.0 x.1.now) result
        (reading fields terminals.now) }
{
    if comes_mark(terminals, Mark::OpenBrace) {
        let rest = take_mark(terminals, Mark::OpenBrace)?;
        before_mark(names(alloc, rest), Mark::CloseBrace)
    } else {
        let (name, rest) = take_name(alloc, terminals)?;
        Ok((one_name(alloc, name)?, rest))
    }
}
