//! Items of one line: imports, aliases and start items.

ghost use Rattle.std.specs.Prelude.{◌≡◌, codes};
ghost use Rattle.regent_grammar.specs.Items.{alias, start_call, the_import};
ghost use Rattle.regent_grammar.specs.Reading.{read, reading};
ghost use Rattle.regent_grammar.specs.Singles.{is_text, the_text};
ghost use Rattle.read_terms.specs.Gives.{Gives};
ghost use Rattle.regent_tree.specs.PlainProgram.{item_of};

use read_terms::{
    Stop, before_mark, before_word, take_library, take_mark, take_name, take_named, take_word,
};
use regent_grammar::{Mark, Symbol, Terminal, Word};
use regent_tree::ItemKind;
use std::alloc::Global;

fn is_text(symbol: &Symbol, text: &[u8]) -> bool
    ensures { result ≡ is_text text.now symbol.now }
{
    match symbol {
        Symbol::Text(found) => found.as_slice() == text,
        _ => false,
    }
}

/// What comes after this very string.
#[tactic(auto, unfolding(regent_grammar::proofs::Opening::reading, regent_grammar::specs::Singles::the_text))]
fn take_the_text<'a>(terminals: &'a [Terminal], text: &[u8]) -> Result<&'a [Terminal], Stop<'a>>
    ensures { Gives (λ rest. read tt rest.now) result (reading (the_text text.now) terminals.now) }
{
    match terminals {
        [] => Err(Stop::At(terminals)),
        [next, rest @ ..] => {
            if is_text(&next.symbol, text) {
                Ok(rest)
            } else {
                Err(Stop::At(terminals))
            }
        }
    }
}

/// An import of `regent`.
#[tactic(auto, unfolding(regent_grammar::proofs::Opening::reading, regent_grammar::specs::Items::the_import))]
pub fn import(terminals: &[Terminal]) -> Result<(ItemKind, &[Terminal]), Stop<'_>>
    ensures { Gives (λ x. read (item_of x.0) x.1.now) result (reading the_import terminals.now) }
{
    let rest = take_word(terminals, Word::Import)?;
    let rest = take_the_text(rest, b"regent".as_slice())?;
    Ok((ItemKind::Import, rest))
}

/// An alias for printing.
#[tactic(auto, unfolding(regent_grammar::proofs::Opening::reading, regent_grammar::specs::Items::alias))]
pub fn alias(alloc: Global, terminals: &[Terminal]) -> Result<(ItemKind, &[Terminal]), Stop<'_>>
    ensures { Gives (λ x. read (item_of x.0) x.1.now) result (reading alias terminals.now) }
{
    let rest = take_word(terminals, Word::Local)?;
    let named = before_mark(take_name(alloc, rest), Mark::Assign);
    let (name, rest) = before_mark(before_word(named, Word::Regentlib), Mark::Dot)?;
    let rest = take_named(rest, b"c".as_slice())?;
    Ok((ItemKind::Alias { name }, rest))
}

/// The start item, which names the entry task.
#[tactic(auto, unfolding(regent_grammar::proofs::Opening::reading, regent_grammar::specs::Items::start_call, regent_grammar::specs::Singles::in_parentheses))]
pub fn start_item(
    alloc: Global,
    terminals: &[Terminal],
) -> Result<(ItemKind, &[Terminal]), Stop<'_>>
    ensures { Gives (λ x. read (item_of x.0) x.1.now) result (reading start_call terminals.now) }
{
    let rest = take_library(terminals, b"start".as_slice())?;
    let rest = take_mark(rest, Mark::Open)?;
    let (name, rest) = before_mark(take_name(alloc, rest), Mark::Close)?;
    Ok((ItemKind::Start { name }, rest))
}
