//! Types as they are written.

ghost use Rattle.std.specs.Prelude.{◌≡◌, ◌<◌, IfOk, length, [], ◌∷◌};
ghost use Rattle.regent_grammar.specs.Reading.{read, reading};
ghost use Rattle.regent_grammar.specs.Rules.{many, maybe, ◌⊲◌, ◌⊳◌};
ghost use Rattle.regent_grammar.specs.Singles.{a_mark, a_word, maybe_listed, name, separated};
ghost use Rattle.regent_grammar.specs.Symbols.{come, comes, is_mark, line_of};
ghost use Rattle.regent_grammar.specs.Types.{a_region, disjointness, index_space, is_kind, kind, kind_of, number, number_of};
ghost use Rattle.regent_grammar.specs.Types.{parameter, partition_type, pointer, reference, region_kind, region_type, space_use, type_term};
ghost use Rattle.regent_lex.specs.declared.tables.Mark.TheVariants as mark;
ghost use Rattle.regent_lex.specs.declared.tables.Word.TheVariants as word;
ghost use Rattle.read_terms.specs.Gives.{Gives, with_front};

use crate::ahead::{comes_mark, comes_word, line_of};
use crate::names::next_name;
use crate::stop::Stop;
use crate::take::{before_mark, take_mark, take_name, take_opening, take_word};
use plain_values::Sequence;
use regent_grammar::{Mark, Symbol, Terminal, Word};
use regent_tree::{Kind, Name, NumberTerm, Param, PointerTerm, Ref, SpaceUse, TypeTerm};
use std::alloc::Global;

fn kind_of(symbol: &Symbol) -> Option<Kind>
    ensures { result ≡ kind_of symbol.now }
{
    match symbol {
        Symbol::Word(Word::Int1d) => Some(Kind::Int1d),
        Symbol::Word(Word::Ptr) => Some(Kind::Ptr),
        _ => None,
    }
}

/// `int1d` or `ptr`.
#[tactic(auto, unfolding(regent_grammar::proofs::Opening::reading, regent_grammar::specs::Types::kind))]
pub fn kind(terminals: &[Terminal]) -> Result<(Kind, &[Terminal]), Stop<'_>>
    ensures same { Gives (λ x. read x.0 x.1.now) result (reading kind terminals.now) }
    ensures shorter { IfOk result (λ x. length x.1.now < length terminals.now) }
{
    match terminals {
        [] => Err(Stop::At(terminals)),
        [next, rest @ ..] => match kind_of(&next.symbol) {
            None => Err(Stop::At(terminals)),
            Some(kind) => Ok((kind, rest)),
        },
    }
}

/// A region's name, or `wild`.
#[tactic(auto, unfolding(regent_grammar::proofs::Opening::reading, regent_grammar::specs::Types::reference))]
fn reference(alloc: Global, terminals: &[Terminal]) -> Result<(Ref, &[Terminal]), Stop<'_>>
    ensures { Gives (λ x. read x.0 x.1.now) result (reading reference terminals.now) }
{
    match terminals {
        [] => Err(Stop::At(terminals)),
        [next, rest @ ..] => match &next.symbol {
            Symbol::Name(name) => {
                let name = Sequence::from_slice(alloc, name.as_slice())?;
                Ok((Ref::Named(name), rest))
            }
            Symbol::Word(Word::Wild) => Ok((Ref::Wild, rest)),
            _ => Err(Stop::At(terminals)),
        },
    }
}

/// A region's name behind a comma.
#[tactic(auto, unfolding(regent_grammar::proofs::Opening::reading))]
fn next_reference(alloc: Global, terminals: &[Terminal]) -> Result<(Ref, &[Terminal]), Stop<'_>>
    ensures { Gives (λ x. read x.0 x.1.now) result (reading (a_mark mark.Comma ⊳ reference) terminals.now) }
{
    let rest = take_mark(terminals, Mark::Comma)?;
    reference(alloc, rest)
}

/// The first of some names of regions, and those behind commas.
fn more_references(
    alloc: Global,
    first: Ref,
    terminals: &[Terminal],
) -> Result<(Sequence<Ref>, &[Terminal]), Stop<'_>>
    ensures { Gives (λ x. read x.0 x.1.now) result
        (with_front (first ∷ []) (reading (many (comes (is_mark mark.Comma)) (a_mark mark.Comma ⊳ reference)) terminals.now)) }
{
    let mut references = Sequence::new(alloc);
    references.push(first)?;
    let mut rest = terminals;
    while comes_mark(rest, Mark::Comma) {
        let (reference, after) = next_reference(alloc, rest)?;
        references.push(reference)?;
        rest = after;
    }
    Ok((references, rest))
}

/// Names of regions.
#[tactic(auto, unfolding(regent_grammar::proofs::Opening::reading, regent_grammar::specs::Singles::separated))]
fn references(
    alloc: Global,
    terminals: &[Terminal],
) -> Result<(Sequence<Ref>, &[Terminal]), Stop<'_>>
    ensures { Gives (λ x. read x.0 x.1.now) result (reading (separated reference) terminals.now) }
{
    let (first, rest) = reference(alloc, terminals)?;
    more_references(alloc, first, rest)
}

/// The arguments of a field space, where there are some.
#[tactic(auto, unfolding(regent_grammar::proofs::Opening::reading, regent_grammar::specs::Singles::maybe_listed, regent_grammar::specs::Singles::in_parentheses))]
fn space_arguments(
    alloc: Global,
    terminals: &[Terminal],
) -> Result<(Sequence<Ref>, &[Terminal]), Stop<'_>>
    ensures { Gives (λ x. read x.0 x.1.now) result (reading (maybe_listed reference) terminals.now) }
{
    if comes_mark(terminals, Mark::Open) {
        let rest = take_mark(terminals, Mark::Open)?;
        before_mark(references(alloc, rest), Mark::Close)
    } else {
        Ok((Sequence::new(alloc), terminals))
    }
}

/// A field space with its arguments.
#[tactic(auto, unfolding(regent_grammar::proofs::Opening::reading, regent_grammar::specs::Types::space_use))]
pub fn space_use(alloc: Global, terminals: &[Terminal]) -> Result<(SpaceUse, &[Terminal]), Stop<'_>>
    ensures { Gives (λ x. read x.0 x.1.now) result (reading space_use terminals.now) }
{
    let (name, rest) = take_name(alloc, terminals)?;
    let (args, rest) = space_arguments(alloc, rest)?;
    Ok((SpaceUse { name, args }, rest))
}

/// The field space of a pointer type.
#[tactic(auto, unfolding(regent_grammar::proofs::Opening::reading))]
fn pointed_space(alloc: Global, terminals: &[Terminal]) -> Result<(SpaceUse, &[Terminal]), Stop<'_>>
    ensures { Gives (λ x. read x.0 x.1.now) result (reading (a_mark mark.Open ⊳ space_use) terminals.now) }
{
    let rest = take_mark(terminals, Mark::Open)?;
    space_use(alloc, rest)
}

/// The regions of a pointer type.
#[tactic(auto, unfolding(regent_grammar::proofs::Opening::reading))]
fn pointed_regions(
    alloc: Global,
    terminals: &[Terminal],
) -> Result<(Sequence<Ref>, &[Terminal]), Stop<'_>>
    ensures { Gives (λ x. read x.0 x.1.now) result
        (reading (a_mark mark.Comma ⊳ separated reference ⊲ a_mark mark.Close) terminals.now) }
{
    let rest = take_mark(terminals, Mark::Comma)?;
    before_mark(references(alloc, rest), Mark::Close)
}

/// A pointer type.
#[tactic(auto, unfolding(regent_grammar::proofs::Opening::reading, regent_grammar::specs::Types::pointer))]
pub fn pointer(
    alloc: Global,
    terminals: &[Terminal],
) -> Result<(PointerTerm, &[Terminal]), Stop<'_>>
    ensures { Gives (λ x. read x.0 x.1.now) result (reading pointer terminals.now) }
{
    let (kind, rest) = kind(terminals)?;
    let (space, rest) = pointed_space(alloc, rest)?;
    let (regions, rest) = pointed_regions(alloc, rest)?;
    let pointer = PointerTerm {
        kind,
        space,
        regions,
    };
    Ok((pointer, rest))
}

pub fn number_of(symbol: &Symbol) -> Option<NumberTerm>
    ensures { result ≡ number_of symbol.now }
{
    match symbol {
        Symbol::Word(Word::Int) => Some(NumberTerm::Int32),
        Symbol::Word(Word::Int32) => Some(NumberTerm::Int32),
        Symbol::Word(Word::Int64) => Some(NumberTerm::Int64),
        Symbol::Word(Word::Int1d) => Some(NumberTerm::Index(Kind::Int1d)),
        Symbol::Word(Word::Ptr) => Some(NumberTerm::Index(Kind::Ptr)),
        _ => None,
    }
}

/// A number type.
#[tactic(auto, unfolding(regent_grammar::proofs::Opening::reading, regent_grammar::specs::Types::number))]
pub fn number(terminals: &[Terminal]) -> Result<(NumberTerm, &[Terminal]), Stop<'_>>
    ensures same { Gives (λ x. read x.0 x.1.now) result (reading number terminals.now) }
    ensures shorter { IfOk result (λ x. length x.1.now < length terminals.now) }
{
    match terminals {
        [] => Err(Stop::At(terminals)),
        [next, rest @ ..] => match number_of(&next.symbol) {
            None => Err(Stop::At(terminals)),
            Some(number) => Ok((number, rest)),
        },
    }
}

/// `ispace` with a kind.
#[tactic(auto, unfolding(regent_grammar::proofs::Opening::reading, regent_grammar::specs::Types::index_space, regent_grammar::specs::Singles::in_parentheses))]
fn index_space(terminals: &[Terminal]) -> Result<(Kind, &[Terminal]), Stop<'_>>
    ensures { Gives (λ x. read x.0 x.1.now) result (reading index_space terminals.now) }
{
    let rest = take_word(terminals, Word::Ispace)?;
    let rest = take_mark(rest, Mark::Open)?;
    before_mark(kind(rest), Mark::Close)
}

/// The kind of a region's index space, where one is written.
#[tactic(auto, unfolding(regent_grammar::proofs::Opening::reading, regent_grammar::specs::Types::region_kind))]
fn region_kind(terminals: &[Terminal]) -> Result<(Option<Kind>, &[Terminal]), Stop<'_>>
    ensures { Gives (λ x. read x.0 x.1.now) result (reading region_kind terminals.now) }
{
    if comes_word(terminals, Word::Ispace) {
        let (kind, rest) = before_mark(index_space(terminals), Mark::Comma)?;
        Ok((Some(kind), rest))
    } else {
        Ok((None, terminals))
    }
}

/// A region type; without a kind it is `ptr`.
fn region_of(kind: Option<Kind>, space: SpaceUse) -> TypeTerm
    ensures { result ≡ a_region kind space }
{
    match kind {
        None => TypeTerm::Region {
            kind: Kind::Ptr,
            space,
        },
        Some(kind) => TypeTerm::Region { kind, space },
    }
}

/// A region type.
#[tactic(auto, unfolding(regent_grammar::proofs::Opening::reading, regent_grammar::specs::Types::region_type))]
fn region_type(alloc: Global, terminals: &[Terminal]) -> Result<(TypeTerm, &[Terminal]), Stop<'_>>
    ensures { Gives (λ x. read x.0 x.1.now) result (reading region_type terminals.now) }
{
    let rest = take_opening(terminals, Word::Region)?;
    let (kind, rest) = region_kind(rest)?;
    let (space, rest) = before_mark(space_use(alloc, rest), Mark::Close)?;
    Ok((region_of(kind, space), rest))
}

/// `disjoint` or `aliased`.
#[tactic(auto, unfolding(regent_grammar::proofs::Opening::reading, regent_grammar::specs::Types::disjointness))]
fn disjointness(terminals: &[Terminal]) -> Result<(bool, &[Terminal]), Stop<'_>>
    ensures { Gives (λ x. read x.0 x.1.now) result (reading disjointness terminals.now) }
{
    match terminals {
        [] => Err(Stop::At(terminals)),
        [next, rest @ ..] => match &next.symbol {
            Symbol::Word(Word::Disjoint) => Ok((true, rest)),
            Symbol::Word(Word::Aliased) => Ok((false, rest)),
            _ => Err(Stop::At(terminals)),
        },
    }
}

/// The name of a partition's colours, where it is written.
#[tactic(auto, unfolding(regent_grammar::proofs::Opening::reading))]
fn colours(alloc: Global, terminals: &[Terminal]) -> Result<(Option<Name>, &[Terminal]), Stop<'_>>
    ensures { Gives (λ x. read x.0 x.1.now) result
        (reading (maybe (comes (is_mark mark.Comma)) (a_mark mark.Comma ⊳ name)) terminals.now) }
{
    if comes_mark(terminals, Mark::Comma) {
        let (colours, rest) = next_name(alloc, terminals)?;
        Ok((Some(colours), rest))
    } else {
        Ok((None, terminals))
    }
}

/// The begin of a partition type: whether it is a disjoint one.
#[tactic(auto, unfolding(regent_grammar::proofs::Opening::reading))]
fn partition_begin(terminals: &[Terminal]) -> Result<(bool, &[Terminal]), Stop<'_>>
    ensures { Gives (λ x. read x.0 x.1.now) result
        (reading (a_word word.Partition ⊳ a_mark mark.Open ⊳ disjointness) terminals.now) }
{
    let rest = take_opening(terminals, Word::Partition)?;
    disjointness(rest)
}

/// The end of a partition type: the name of its colours, where it is written.
#[tactic(auto, unfolding(regent_grammar::proofs::Opening::reading))]
fn partition_end(
    alloc: Global,
    terminals: &[Terminal],
) -> Result<(Option<Name>, &[Terminal]), Stop<'_>>
    ensures { Gives (λ x. read x.0 x.1.now) result
        (reading (maybe (comes (is_mark mark.Comma)) (a_mark mark.Comma ⊳ name) ⊲ a_mark mark.Close) terminals.now) }
{
    before_mark(colours(alloc, terminals), Mark::Close)
}

/// A partition type.
#[tactic(auto, unfolding(regent_grammar::proofs::Opening::reading, regent_grammar::specs::Types::partition_type))]
fn partition_type(
    alloc: Global,
    terminals: &[Terminal],
) -> Result<(TypeTerm, &[Terminal]), Stop<'_>>
    ensures { Gives (λ x. read x.0 x.1.now) result (reading partition_type terminals.now) }
{
    let (disjoint, rest) = partition_begin(terminals)?;
    let (region, rest) = next_name(alloc, rest)?;
    let (colours, rest) = partition_end(alloc, rest)?;
    let term = TypeTerm::Partition {
        disjoint,
        region,
        colours,
    };
    Ok((term, rest))
}

fn is_kind(symbol: &Symbol) -> bool
    ensures { result ≡ is_kind symbol.now }
{
    matches!(symbol, Symbol::Word(Word::Int1d | Word::Ptr))
}

/// Whether a pointer type comes next: a kind before a parenthesis.
fn comes_pointer(terminals: &[Terminal]) -> bool
    ensures { result ≡ come (is_kind ∷ is_mark mark.Open ∷ []) terminals.now }
{
    match terminals {
        [] => false,
        [next, rest @ ..] => is_kind(&next.symbol) && comes_mark(rest, Mark::Open),
    }
}

/// A type.
#[tactic(auto, unfolding(regent_grammar::proofs::Opening::reading, regent_grammar::specs::Types::type_term))]
pub fn type_term(alloc: Global, terminals: &[Terminal]) -> Result<(TypeTerm, &[Terminal]), Stop<'_>>
    ensures { Gives (λ x. read x.0 x.1.now) result (reading type_term terminals.now) }
{
    if comes_pointer(terminals) {
        let (pointer, rest) = pointer(alloc, terminals)?;
        Ok((TypeTerm::Pointer(pointer), rest))
    } else if comes_word(terminals, Word::Bool) {
        let rest = take_word(terminals, Word::Bool)?;
        Ok((TypeTerm::Truth, rest))
    } else if comes_word(terminals, Word::Ispace) {
        let (kind, rest) = index_space(terminals)?;
        Ok((TypeTerm::Ispace(kind), rest))
    } else if comes_word(terminals, Word::Region) {
        region_type(alloc, terminals)
    } else if comes_word(terminals, Word::Partition) {
        partition_type(alloc, terminals)
    } else {
        let (number, rest) = number(terminals)?;
        Ok((TypeTerm::Number(number), rest))
    }
}

/// The type behind a colon, where it is written.
#[tactic(auto, unfolding(regent_grammar::proofs::Opening::reading))]
pub fn declared_type(
    alloc: Global,
    terminals: &[Terminal],
) -> Result<(Option<TypeTerm>, &[Terminal]), Stop<'_>>
    ensures { Gives (λ x. read x.0 x.1.now) result
        (reading (maybe (comes (is_mark mark.Colon)) (a_mark mark.Colon ⊳ type_term)) terminals.now) }
{
    if comes_mark(terminals, Mark::Colon) {
        let rest = take_mark(terminals, Mark::Colon)?;
        let (term, rest) = type_term(alloc, rest)?;
        Ok((Some(term), rest))
    } else {
        Ok((None, terminals))
    }
}

/// A parameter.
#[tactic(auto, unfolding(regent_grammar::proofs::Opening::reading, regent_grammar::specs::Types::parameter))]
pub fn parameter(alloc: Global, terminals: &[Terminal]) -> Result<(Param, &[Terminal]), Stop<'_>>
    ensures { Gives (λ x. read x.0 x.1.now) result (reading parameter terminals.now) }
{
    let line = line_of(terminals);
    let (name, rest) = before_mark(take_name(alloc, terminals), Mark::Colon)?;
    let (term, rest) = type_term(alloc, rest)?;
    Ok((Param { line, name, term }, rest))
}
