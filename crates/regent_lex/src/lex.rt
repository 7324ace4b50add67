//! The tokens of a text.

ghost use Rattle.std.specs.Prelude.{All, IfOk, drop, length, take, ◌+◌, ◌<◌, ◌^◌, ◌≡◌, ◌≤◌};
ghost use Rattle.regent_lex.specs.Bytes.{feeds};
ghost use Rattle.regent_lex.specs.Places.{IsOnLine, IsWithin, Spells, spelling};
ghost use Rattle.regent_lex.specs.Texts.{Lexed, Lexes};
ghost use Rattle.regent_lex.specs.Told.{Told};

use crate::fault::LexFault;
use crate::input_element::InputElement;
use crate::scan::first_element;
use crate::token::Token;
use std::alloc::Global;

/// The text from a place on.
fn tail(text: &[u8], place: usize) -> &[u8]
    requires { place ≤ length text.now }
    ensures { result.now ≡ drop place text.now }
{
    &text[place..]
}

/// How many line feeds stand among the first bytes.
fn line_feeds(text: &[u8], n: usize) -> u32
    requires within { n ≤ length text.now }
    requires short { length text.now < 2 ^ 31 }
    ensures same { result ≡ feeds (take n text.now) }
    ensures within { result ≤ n }
{
    text[..n].iter().filter(|b| **b == b'\n').count() as u32
}

/// Reads input element after input element, up to the text's end or a fault.
fn read_all(alloc: Global, text: &[u8]) -> Result<Vec<Token>, LexFault>
    requires { length text.now ≤ 1048576 }
    ensures { Told (λ out. Lexes text.now 0 1 out) result }
{
    let mut tokens = Vec::new(alloc);
    let mut place = 0;
    let mut line: u32 = 1;
    loop {
        let rest = tail(text, place);
        let Some(input_element) = first_element(rest) else {
            return Ok(tokens);
        };
        match input_element {
            InputElement::Trivia(n) => {
                line += line_feeds(rest, n);
                place += n;
            }
            InputElement::Token(kind, n) => {
                tokens.push(Token {
                    kind,
                    start: place as u32,
                    end: (place + n) as u32,
                    line,
                })?;
                line += line_feeds(rest, n);
                place += n;
            }
            InputElement::Fault(kind, n) => {
                return Err(LexFault::At {
                    kind,
                    line: line + line_feeds(rest, n),
                });
            }
        }
    }
}

/// The tokens of a text in order, or the first fault and the line of its byte.
pub fn tokens(alloc: Global, text: &[u8]) -> Result<Vec<Token>, LexFault>
    requires { length text.now ≤ 1048576 }

    // What is told is so.
    ensures told { Told (λ out. Lexes text.now 0 1 out) result }
    // Nothing else is so, and what is so is told unless memory runs out.
    ensures only { (out : Lexed) → Lexes text.now 0 1 out → Told (λ t. t ≡ out) result }

    // What callers use of each token.
    ensures within { IfOk result (λ ts. All (IsWithin text.now) ts.items) }
    ensures lines { IfOk result (λ ts. All (IsOnLine text.now) ts.items) }
    ensures kinds { IfOk result (λ ts. All (λ t. Spells t.kind (spelling text.now t)) ts.items) }
{
    read_all(alloc, text)
}
