//! Tokens.

ghost use Rattle.std.specs.Prelude.{◌≡◌};
ghost use Rattle.regent_lex.specs.Places.{IsWithin, spelling};

/// What a token is.
#[derive(Clone, Copy, Debug, PartialEq, Eq)]
pub enum TokenKind {
    /// A letter or `_`, then letters, digits and `_`, which together are no reserved word.
    Name,
    /// A reserved word.
    Word,
    /// Decimal digits, and `LL` behind them where it stands there.
    Number,
    /// A string, with its quotes.
    Quoted,
    /// A sign of one byte or two.
    Sign,
}

/// A token of a text: its spelling is the text's bytes from `start` to just before `end`.
#[derive(Clone, Copy, Debug, PartialEq, Eq)]
pub struct Token {
    pub kind: TokenKind,
    pub start: u32,
    pub end: u32,
    /// The line of the first byte; lines are counted from 1.
    pub line: u32,
}

/// The bytes of a token.
pub fn spelling(text: &[u8], token: Token) -> &[u8]
    requires { IsWithin text.now token }
    ensures { result.now ≡ spelling text.now token }
{
    &text[token.start as usize..token.end as usize]
}
