//! What comes next.

ghost use Rattle.std.specs.Prelude.{◌≡◌, [], ◌∷◌};
ghost use Rattle.regent_grammar.specs.Symbols.{come, comes, is_mark, is_name, is_word, line_of};

use crate::take::{is_mark, is_word};
use regent_grammar::{Mark, Symbol, Terminal, Word};

/// Whether this sign comes next.
pub fn comes_mark(terminals: &[Terminal], mark: Mark) -> bool
    ensures { result ≡ comes (is_mark mark) terminals.now }
{
    match terminals {
        [] => false,
        [next, ..] => is_mark(&next.symbol, mark),
    }
}

/// Whether this word comes next.
pub fn comes_word(terminals: &[Terminal], word: Word) -> bool
    ensures { result ≡ comes (is_word word) terminals.now }
{
    match terminals {
        [] => false,
        [next, ..] => is_word(&next.symbol, word),
    }
}

pub fn is_name(symbol: &Symbol) -> bool
    ensures { result ≡ is_name symbol.now }
{
    match symbol {
        Symbol::Name(_) => true,
        _ => false,
    }
}

/// Whether a name comes next, and this sign behind it.
pub fn comes_name_before(terminals: &[Terminal], mark: Mark) -> bool
    ensures { result ≡ come (is_name ∷ is_mark mark ∷ []) terminals.now }
{
    match terminals {
        [] => false,
        [next, rest @ ..] => is_name(&next.symbol) && comes_mark(rest, mark),
    }
}

/// The line of the next terminal, or 0 at the end.
pub fn line_of(terminals: &[Terminal]) -> u32
    ensures { result ≡ line_of terminals.now }
{
    match terminals {
        [] => 0,
        [next, ..] => next.line,
    }
}
