//! From tokens to terminals: which word or sign a token is, and what numbers and strings stand for.

ghost use Rattle.std.specs.Prelude.{◌≡◌, ◌≤◌, IfOk, MatchOption, length, map, All};
ghost use Rattle.regent_lex.specs.Places.{IsWithin, Spells, spelling};
ghost use Rattle.regent_grammar.specs.Terminals.{terminal_of, terminals, number_width, symbol_of};

use crate::symbol::{Symbol, Terminal};
use lane_kernels::Width;
use plain_values::Sequence;
use regent_lex::{
    Token, TokenKind, has_suffix, mark_of, number_value, quoted_bytes, spelling, word_of,
};
use std::alloc::{AllocError, Global};

fn width_of(value: u64, suffix: bool) -> Width
    ensures { result ≡ number_width value suffix }
{
    if suffix {
        Width::W64
    } else if value <= 2_147_483_647 {
        Width::W32
    } else {
        Width::W64
    }
}

/// What the bytes of a token stand for.
fn symbol(alloc: Global, kind: TokenKind, bytes: &[u8]) -> Result<Symbol, AllocError>
    requires { Spells kind bytes.now }
    ensures { IfOk result (λ s. s ≡ symbol_of kind bytes.now) }
{
    match kind {
        TokenKind::Name => Ok(Symbol::Name(Sequence::from_slice(alloc, bytes)?)),
        TokenKind::Word => Ok(match word_of(bytes) {
            Some(word) => Symbol::Word(word),
            None => Symbol::Unknown,
        }),
        TokenKind::Number => {
            let value = number_value(bytes);
            Ok(Symbol::Number {
                value: value as i64,
                width: width_of(value, has_suffix(bytes)),
            })
        }
        TokenKind::Quoted => {
            let bytes = quoted_bytes(alloc, bytes)?;
            Ok(Symbol::Text(Sequence::from_vec(bytes)))
        }
        TokenKind::Sign => Ok(match mark_of(bytes) {
            Some(mark) => Symbol::Mark(mark),
            None => Symbol::Unknown,
        }),
    }
}

/// The terminal of a token.
fn terminal(alloc: Global, text: &[u8], token: Token) -> Result<Terminal, AllocError>
    requires within { IsWithin text.now token }
    requires spells { Spells token.kind (spelling text.now token) }
    ensures { IfOk result (λ l. l ≡ terminal_of text.now token) }
{
    let symbol = symbol(alloc, token.kind, spelling(text, token))?;
    let line = token.line;
    Ok(Terminal { symbol, line })
}

/// The terminals of a text's tokens.
pub fn terminals(alloc: Global, text: &[u8], tokens: &[Token]) -> Result<Vec<Terminal>, AllocError>
    requires within { All (IsWithin text.now) tokens.now }
    requires spells { All (λ t. Spells t.kind (spelling text.now t)) tokens.now }
    ensures { IfOk result (λ ls. ls.items ≡ terminals text.now tokens.now) }
{
    let mut terminals = Vec::new(alloc);
    for token in tokens {
        terminals.push(terminal(alloc, text, *token)?)?;
    }
    Ok(terminals)
}
