//! The clauses of a task: privileges and constraints.

ghost use Rattle.std.specs.Prelude.{◌≡◌, ◌<◌, [], ◌∷◌, IfOk, length};
ghost use Rattle.regent_grammar.specs.Items.{access_of, apart, clause, clauses, grant, is_grant};
ghost use Rattle.regent_grammar.specs.Items.{operation, operation_of, place, privileges};
ghost use Rattle.regent_grammar.specs.Items.{reading_or_writing, within};
ghost use Rattle.regent_grammar.specs.Reading.{read, reading};
ghost use Rattle.regent_grammar.specs.Rules.{many, maybe, ◌⊳◌};
ghost use Rattle.regent_grammar.specs.Singles.{a_mark, in_parentheses, separated};
ghost use Rattle.regent_grammar.specs.Statements.{fields};
ghost use Rattle.regent_grammar.specs.Symbols.{comes, is_mark};
ghost use Rattle.regent_lex.specs.declared.tables.Mark.TheVariants as mark;
ghost use Rattle.read_terms.specs.Gives.{Gives, with_front};

use plain_values::Sequence;
use read_terms::{
    Stop, before_mark, before_word, comes_mark, comes_name_before, comes_word, fields, take_mark,
    take_name, take_word,
};
use regent_grammar::{Mark, Symbol, Terminal, Word};
use regent_tree::{Clause, Grant, Name, Op, Place};
use std::alloc::Global;

fn operation_of(symbol: &Symbol) -> Option<Op>
    ensures { result ≡ operation_of symbol.now }
{
    match symbol {
        Symbol::Mark(Mark::Plus) => Some(Op::Sum),
        Symbol::Mark(Mark::Star) => Some(Op::Product),
        Symbol::Word(Word::Min) => Some(Op::Least),
        Symbol::Word(Word::Max) => Some(Op::Greatest),
        _ => None,
    }
}

/// The operator of a reduction.
#[tactic(auto, unfolding(regent_grammar::proofs::Opening::reading, regent_grammar::specs::Items::operation))]
fn operation(terminals: &[Terminal]) -> Result<(Op, &[Terminal]), Stop<'_>>
    ensures { Gives (λ x. read x.0 x.1.now) result (reading operation terminals.now) }
{
    match terminals {
        [] => Err(Stop::At(terminals)),
        [next, rest @ ..] => match operation_of(&next.symbol) {
            None => Err(Stop::At(terminals)),
            Some(operation) => Ok((operation, rest)),
        },
    }
}

fn access_of(symbol: &Symbol) -> Option<Grant>
    ensures { result ≡ access_of symbol.now }
{
    match symbol {
        Symbol::Word(Word::Reads) => Some(Grant::Reads),
        Symbol::Word(Word::Writes) => Some(Grant::Writes),
        _ => None,
    }
}

/// `reads` or `writes`.
#[tactic(auto, unfolding(regent_grammar::proofs::Opening::reading, regent_grammar::specs::Items::reading_or_writing))]
fn reading_or_writing(terminals: &[Terminal]) -> Result<(Grant, &[Terminal]), Stop<'_>>
    ensures { Gives (λ x. read x.0 x.1.now) result (reading reading_or_writing terminals.now) }
{
    match terminals {
        [] => Err(Stop::At(terminals)),
        [next, rest @ ..] => match access_of(&next.symbol) {
            None => Err(Stop::At(terminals)),
            Some(grant) => Ok((grant, rest)),
        },
    }
}

/// A privilege.
#[tactic(auto, unfolding(regent_grammar::proofs::Opening::reading, regent_grammar::specs::Items::grant))]
fn grant(terminals: &[Terminal]) -> Result<(Grant, &[Terminal]), Stop<'_>>
    ensures { Gives (λ x. read x.0 x.1.now) result (reading grant terminals.now) }
{
    if comes_word(terminals, Word::Reduces) {
        let rest = take_word(terminals, Word::Reduces)?;
        let (operation, rest) = operation(rest)?;
        Ok((Grant::Reduces(operation), rest))
    } else {
        reading_or_writing(terminals)
    }
}

fn is_grant(symbol: &Symbol) -> bool
    ensures { result ≡ is_grant symbol.now }
{
    match symbol {
        Symbol::Word(Word::Reads) => true,
        Symbol::Word(Word::Writes) => true,
        Symbol::Word(Word::Reduces) => true,
        _ => false,
    }
}

/// Whether a privilege comes next.
fn comes_grant(terminals: &[Terminal]) -> bool
    ensures { result ≡ comes is_grant terminals.now }
{
    match terminals {
        [] => false,
        [next, ..] => is_grant(&next.symbol),
    }
}

/// The first of some privileges, and those behind it.
fn more_grants(
    alloc: Global,
    first: Grant,
    terminals: &[Terminal],
) -> Result<(Sequence<Grant>, &[Terminal]), Stop<'_>>
    ensures { Gives (λ x. read x.0 x.1.now) result
        (with_front (first ∷ []) (reading (many (comes is_grant) grant) terminals.now)) }
{
    let mut grants = Sequence::new(alloc);
    grants.push(first)?;
    let mut rest = terminals;
    while comes_grant(rest) {
        let (grant, after) = grant(rest)?;
        grants.push(grant)?;
        rest = after;
    }
    Ok((grants, rest))
}

/// The fields of a place, where they are named.
#[tactic(auto, unfolding(regent_grammar::proofs::Opening::reading))]
fn some_fields(
    alloc: Global,
    terminals: &[Terminal],
) -> Result<(Option<Sequence<Name>>, &[Terminal]), Stop<'_>>
    ensures { Gives (λ x. read x.0 x.1.now) result
        (reading (maybe (comes (is_mark mark.Dot)) (a_mark mark.Dot ⊳ fields)) terminals.now) }
{
    if comes_mark(terminals, Mark::Dot) {
        let rest = take_mark(terminals, Mark::Dot)?;
        let (fields, rest) = fields(alloc, rest)?;
        Ok((Some(fields), rest))
    } else {
        Ok((None, terminals))
    }
}

/// A region, with some of its fields or all.
#[tactic(auto, unfolding(regent_grammar::proofs::Opening::reading, regent_grammar::specs::Items::place))]
fn place(alloc: Global, terminals: &[Terminal]) -> Result<(Place, &[Terminal]), Stop<'_>>
    ensures { Gives (λ x. read x.0 x.1.now) result (reading place terminals.now) }
{
    let (region, rest) = take_name(alloc, terminals)?;
    let (fields, rest) = some_fields(alloc, rest)?;
    Ok((Place { region, fields }, rest))
}

/// A place behind a comma.
#[tactic(auto, unfolding(regent_grammar::proofs::Opening::reading))]
fn next_place(alloc: Global, terminals: &[Terminal]) -> Result<(Place, &[Terminal]), Stop<'_>>
    ensures { Gives (λ x. read x.0 x.1.now) result
        (reading (a_mark mark.Comma ⊳ place) terminals.now) }
{
    let rest = take_mark(terminals, Mark::Comma)?;
    place(alloc, rest)
}

/// The first of some places, and those behind commas.
fn more_places(
    alloc: Global,
    first: Place,
    terminals: &[Terminal],
) -> Result<(Sequence<Place>, &[Terminal]), Stop<'_>>
    ensures { Gives (λ x. read x.0 x.1.now) result
        (with_front (first ∷ []) (reading (many (comes (is_mark mark.Comma)) (a_mark mark.Comma ⊳ place)) terminals.now)) }
{
    let mut places = Sequence::new(alloc);
    places.push(first)?;
    let mut rest = terminals;
    while comes_mark(rest, Mark::Comma) {
        let (place, after) = next_place(alloc, rest)?;
        places.push(place)?;
        rest = after;
    }
    Ok((places, rest))
}

/// Places, with commas between them.
#[tactic(auto, unfolding(regent_grammar::proofs::Opening::reading, regent_grammar::specs::Singles::separated))]
fn listed_places(
    alloc: Global,
    terminals: &[Terminal],
) -> Result<(Sequence<Place>, &[Terminal]), Stop<'_>>
    ensures { Gives (λ x. read x.0 x.1.now) result (reading (separated place) terminals.now) }
{
    let (first, rest) = place(alloc, terminals)?;
    more_places(alloc, first, rest)
}

/// Places, in parentheses.
#[tactic(auto, unfolding(regent_grammar::proofs::Opening::reading, regent_grammar::specs::Singles::in_parentheses))]
fn places(alloc: Global, terminals: &[Terminal]) -> Result<(Sequence<Place>, &[Terminal]), Stop<'_>>
    ensures { Gives (λ x. read x.0 x.1.now) result
        (reading (in_parentheses (separated place)) terminals.now) }
{
    let rest = take_mark(terminals, Mark::Open)?;
    before_mark(listed_places(alloc, rest), Mark::Close)
}

/// Privileges, and the places that they are for.
#[tactic(auto, unfolding(regent_grammar::proofs::Opening::reading, regent_grammar::specs::Items::privileges))]
fn privileges(alloc: Global, terminals: &[Terminal]) -> Result<(Clause, &[Terminal]), Stop<'_>>
    ensures { Gives (λ x. read x.0 x.1.now) result (reading privileges terminals.now) }
{
    let (first, rest) = grant(terminals)?;
    let (grants, rest) = more_grants(alloc, first, rest)?;
    let (places, rest) = places(alloc, rest)?;
    Ok((Clause::Grants { grants, places }, rest))
}

/// A region that lies within another.
#[tactic(auto, unfolding(regent_grammar::proofs::Opening::reading, regent_grammar::specs::Items::within))]
fn within(alloc: Global, terminals: &[Terminal]) -> Result<(Clause, &[Terminal]), Stop<'_>>
    ensures { Gives (λ x. read x.0 x.1.now) result (reading within terminals.now) }
{
    let (a, rest) = before_mark(take_name(alloc, terminals), Mark::AtMost)?;
    let (b, rest) = take_name(alloc, rest)?;
    Ok((Clause::Within { a, b }, rest))
}

/// Two regions that have no point in common.
#[tactic(auto, unfolding(regent_grammar::proofs::Opening::reading, regent_grammar::specs::Items::apart))]
fn apart(alloc: Global, terminals: &[Terminal]) -> Result<(Clause, &[Terminal]), Stop<'_>>
    ensures { Gives (λ x. read x.0 x.1.now) result (reading apart terminals.now) }
{
    let (a, rest) = before_mark(take_name(alloc, terminals), Mark::Star)?;
    let (b, rest) = take_name(alloc, rest)?;
    Ok((Clause::Apart { a, b }, rest))
}

/// A clause.
#[tactic(auto, unfolding(regent_grammar::proofs::Opening::reading, regent_grammar::specs::Items::clause))]
fn clause(alloc: Global, terminals: &[Terminal]) -> Result<(Clause, &[Terminal]), Stop<'_>>
    ensures { Gives (λ x. read x.0 x.1.now) result (reading clause terminals.now) }
{
    if comes_grant(terminals) {
        privileges(alloc, terminals)
    } else if comes_name_before(terminals, Mark::AtMost) {
        within(alloc, terminals)
    } else {
        apart(alloc, terminals)
    }
}

/// A clause behind a comma.
#[tactic(auto, unfolding(regent_grammar::proofs::Opening::reading))]
fn next_clause(alloc: Global, terminals: &[Terminal]) -> Result<(Clause, &[Terminal]), Stop<'_>>
    ensures { Gives (λ x. read x.0 x.1.now) result
        (reading (a_mark mark.Comma ⊳ clause) terminals.now) }
{
    let rest = take_mark(terminals, Mark::Comma)?;
    clause(alloc, rest)
}

/// The first of some clauses, and those behind commas.
fn more_clauses(
    alloc: Global,
    first: Clause,
    terminals: &[Terminal],
) -> Result<(Sequence<Clause>, &[Terminal]), Stop<'_>>
    ensures { Gives (λ x. read x.0 x.1.now) result
        (with_front (first ∷ []) (reading (many (comes (is_mark mark.Comma)) (a_mark mark.Comma ⊳ clause)) terminals.now)) }
{
    let mut clauses = Sequence::new(alloc);
    clauses.push(first)?;
    let mut rest = terminals;
    while comes_mark(rest, Mark::Comma) {
        let (clause, after) = next_clause(alloc, rest)?;
        clauses.push(clause)?;
        rest = after;
    }
    Ok((clauses, rest))
}

/// Clauses, with commas between them.
#[tactic(auto, unfolding(regent_grammar::proofs::Opening::reading, regent_grammar::specs::Singles::separated))]
fn listed_clauses(
    alloc: Global,
    terminals: &[Terminal],
) -> Result<(Sequence<Clause>, &[Terminal]), Stop<'_>>
    ensures { Gives (λ x. read x.0 x.1.now) result (reading (separated clause) terminals.now) }
{
    let (first, rest) = clause(alloc, terminals)?;
    more_clauses(alloc, first, rest)
}

/// The clauses of a task, where there are some.
#[tactic(auto, unfolding(regent_grammar::proofs::Opening::reading, regent_grammar::specs::Items::clauses))]
pub fn clauses(
    alloc: Global,
    terminals: &[Terminal],
) -> Result<(Sequence<Clause>, &[Terminal]), Stop<'_>>
    ensures { Gives (λ x. read x.0 x.1.now) result (reading clauses terminals.now) }
{
    if comes_word(terminals, Word::Where) {
        let rest = take_word(terminals, Word::Where)?;
        before_word(listed_clauses(alloc, rest), Word::Do)
    } else {
        Ok((Sequence::new(alloc), terminals))
    }
}
