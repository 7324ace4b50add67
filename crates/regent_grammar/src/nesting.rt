//! How deep parentheses, brackets, braces and blocks nest.

ghost use Rattle.std.specs.Prelude.{◌≡◌, ◌≤◌};
ghost use Rattle.regent_grammar.specs.Nesting.{depth_behind, too_deep};

use crate::symbol::{Symbol, Terminal};
use regent_lex::{Mark, Word};

/// How deep it is behind a symbol.
fn depth_behind(depth: u32, symbol: &Symbol) -> u32
    requires { depth ≤ 64 }
    ensures { result ≡ depth_behind depth symbol.now }
{
    match symbol {
        Symbol::Mark(Mark::Open | Mark::OpenSquare | Mark::OpenBrace) => depth + 1,
        Symbol::Word(Word::Do | Word::Then) => depth + 1,
        Symbol::Mark(Mark::Close | Mark::CloseSquare | Mark::CloseBrace) => depth.saturating_sub(1),
        Symbol::Word(Word::End | Word::Elseif) => depth.saturating_sub(1),
        _ => depth,
    }
}

/// The line of the first terminal behind which more than 64 are open.
pub fn first_too_deep(terminals: &[Terminal]) -> Option<u32>
    ensures { result ≡ too_deep terminals.now }
{
    let mut depth = 0;
    for terminal in terminals {
        depth = depth_behind(depth, &terminal.symbol);
        if depth > 64 {
            return Some(terminal.line);
        }
    }
    None
}
