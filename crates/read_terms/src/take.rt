//! Single terminals from the front.

ghost use Rattle.std.specs.Prelude.{◌≡◌, ◌<◌, Err, IfOk, IsOkAnd, MatchResult, length};
ghost use Rattle.regent_grammar.specs.Reading.{read, reading};
ghost use Rattle.regent_grammar.specs.Rules.{◌⊳◌};
ghost use Rattle.regent_grammar.specs.Singles.{a_mark, a_word, name, named, text};
ghost use Rattle.regent_grammar.specs.Symbols.{is_mark, is_named, is_word};
ghost use Rattle.regent_lex.specs.declared.tables.Mark.TheVariants as mark;
ghost use Rattle.regent_lex.specs.declared.tables.Word.TheVariants as word;
ghost use Rattle.read_terms.specs.Gives.{Gives, Stopped};

use crate::stop::Stop;
use plain_values::Sequence;
use regent_grammar::{Mark, Symbol, Terminal, Word};
use regent_tree::Name;
use std::alloc::Global;

pub fn is_mark(symbol: &Symbol, mark: Mark) -> bool
    ensures { result ≡ is_mark mark symbol.now }
{
    match symbol {
        Symbol::Mark(found) => *found == mark,
        _ => false,
    }
}

pub fn is_word(symbol: &Symbol, word: Word) -> bool
    ensures { result ≡ is_word word symbol.now }
{
    match symbol {
        Symbol::Word(found) => *found == word,
        _ => false,
    }
}

pub fn is_named(symbol: &Symbol, name: &[u8]) -> bool
    ensures { result ≡ is_named name.now symbol.now }
{
    match symbol {
        Symbol::Name(found) => found.as_slice() == name,
        _ => false,
    }
}

/// What comes after this sign.
#[tactic(auto, unfolding(regent_grammar::proofs::Opening::reading, regent_grammar::specs::Singles::a_mark))]
pub fn take_mark(terminals: &[Terminal], mark: Mark) -> Result<&[Terminal], Stop<'_>>
    ensures same { Gives (λ rest. read tt rest.now) result (reading (a_mark mark) terminals.now) }
    ensures shorter { IfOk result (λ rest. length rest.now < length terminals.now) }
{
    match terminals {
        [] => Err(Stop::At(terminals)),
        [next, rest @ ..] => {
            if is_mark(&next.symbol, mark) {
                Ok(rest)
            } else {
                Err(Stop::At(terminals))
            }
        }
    }
}

/// What comes after this word.
#[tactic(auto, unfolding(regent_grammar::proofs::Opening::reading, regent_grammar::specs::Singles::a_word))]
pub fn take_word(terminals: &[Terminal], word: Word) -> Result<&[Terminal], Stop<'_>>
    ensures same { Gives (λ rest. read tt rest.now) result (reading (a_word word) terminals.now) }
    ensures shorter { IfOk result (λ rest. length rest.now < length terminals.now) }
{
    match terminals {
        [] => Err(Stop::At(terminals)),
        [next, rest @ ..] => {
            if is_word(&next.symbol, word) {
                Ok(rest)
            } else {
                Err(Stop::At(terminals))
            }
        }
    }
}

/// What comes after this word and an opening parenthesis.
#[tactic(auto, unfolding(regent_grammar::proofs::Opening::reading))]
pub fn take_opening(terminals: &[Terminal], word: Word) -> Result<&[Terminal], Stop<'_>>
    ensures same { Gives (λ rest. read tt rest.now) result
        (reading (a_word word ⊳ a_mark mark.Open) terminals.now) }
    ensures shorter { IfOk result (λ rest. length rest.now < length terminals.now) }
{
    let rest = take_word(terminals, word)?;
    take_mark(rest, Mark::Open)
}

/// What was read, with this sign behind it.
pub fn before_mark<'a, T: Drop>(
    so_far: Result<(T, &'a [Terminal]), Stop<'a>>,
    mark: Mark,
) -> Result<(T, &'a [Terminal]), Stop<'a>>
    ensures { MatchResult so_far.entry
        (λ x. MatchResult result
        (λ y. (y.0 ≡ x.0) × (reading (a_mark mark) x.1.now ≡ read tt y.1.now)
        × (length y.1.now < length x.1.now))
        (λ stop. Stopped stop (reading (a_mark mark) x.1.now)))
        (λ stop. result ≡ Err stop) }
{
    let (value, rest) = so_far?;
    let rest = take_mark(rest, mark)?;
    Ok((value, rest))
}

/// What was read, with this word behind it.
pub fn before_word<'a, T: Drop>(
    so_far: Result<(T, &'a [Terminal]), Stop<'a>>,
    word: Word,
) -> Result<(T, &'a [Terminal]), Stop<'a>>
    ensures { MatchResult so_far.entry
        (λ x. MatchResult result
        (λ y. (y.0 ≡ x.0) × (reading (a_word word) x.1.now ≡ read tt y.1.now)
        × (length y.1.now < length x.1.now))
        (λ stop. Stopped stop (reading (a_word word) x.1.now)))
        (λ stop. result ≡ Err stop) }
{
    let (value, rest) = so_far?;
    let rest = take_word(rest, word)?;
    Ok((value, rest))
}

/// What was read, with what was read before it.
pub fn with_first<'a, T: Drop, U: Drop>(
    first: T,
    so_far: Result<(U, &'a [Terminal]), Stop<'a>>,
) -> Result<((T, U), &'a [Terminal]), Stop<'a>>
    ensures { MatchResult so_far.entry
        (λ x. IsOkAnd result (λ y. (y.0.0 ≡ first) × (y.0.1 ≡ x.0) × (y.1.now ≡ x.1.now)))
        (λ stop. result ≡ Err stop) }
{
    let (value, rest) = so_far?;
    Ok(((first, value), rest))
}

/// What comes after this very name.
#[tactic(auto, unfolding(regent_grammar::proofs::Opening::reading, regent_grammar::specs::Singles::named))]
pub fn take_named<'a>(terminals: &'a [Terminal], name: &[u8]) -> Result<&'a [Terminal], Stop<'a>>
    ensures same { Gives (λ rest. read tt rest.now) result (reading (named name.now) terminals.now) }
    ensures shorter { IfOk result (λ rest. length rest.now < length terminals.now) }
{
    match terminals {
        [] => Err(Stop::At(terminals)),
        [next, rest @ ..] => {
            if is_named(&next.symbol, name) {
                Ok(rest)
            } else {
                Err(Stop::At(terminals))
            }
        }
    }
}

/// What comes after `regentlib.` and this very name.
#[tactic(auto, unfolding(regent_grammar::proofs::Opening::reading))]
pub fn take_library<'a>(terminals: &'a [Terminal], name: &[u8]) -> Result<&'a [Terminal], Stop<'a>>
    ensures { Gives (λ rest. read tt rest.now) result
        (reading (a_word word.Regentlib ⊳ a_mark mark.Dot ⊳ named name.now) terminals.now) }
{
    let rest = take_word(terminals, Word::Regentlib)?;
    let rest = take_mark(rest, Mark::Dot)?;
    take_named(rest, name)
}

/// A name, and what comes after it.
#[tactic(auto, unfolding(regent_grammar::proofs::Opening::reading, regent_grammar::specs::Singles::name))]
pub fn take_name(alloc: Global, terminals: &[Terminal]) -> Result<(Name, &[Terminal]), Stop<'_>>
    ensures same { Gives (λ x. read x.0 x.1.now) result (reading name terminals.now) }
    ensures shorter { IfOk result (λ x. length x.1.now < length terminals.now) }
{
    match terminals {
        [] => Err(Stop::At(terminals)),
        [next, rest @ ..] => match &next.symbol {
            Symbol::Name(name) => Ok((Sequence::from_slice(alloc, name.as_slice())?, rest)),
            _ => Err(Stop::At(terminals)),
        },
    }
}

/// The bytes that a string stands for, and what comes after it.
#[tactic(auto, unfolding(regent_grammar::proofs::Opening::reading, regent_grammar::specs::Singles::text))]
pub fn take_text(
    alloc: Global,
    terminals: &[Terminal],
) -> Result<(Sequence<u8>, &[Terminal]), Stop<'_>>
    ensures same { Gives (λ x. read x.0 x.1.now) result (reading text terminals.now) }
    ensures shorter { IfOk result (λ x. length x.1.now < length terminals.now) }
{
    match terminals {
        [] => Err(Stop::At(terminals)),
        [next, rest @ ..] => match &next.symbol {
            Symbol::Text(bytes) => Ok((Sequence::from_slice(alloc, bytes.as_slice())?, rest)),
            _ => Err(Stop::At(terminals)),
        },
    }
}
