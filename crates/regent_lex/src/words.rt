//! Reserved words, and names.

ghost use Rattle.std.specs.Prelude.{take, ◌≡◌};
ghost use Rattle.regent_lex.specs.Words.{is_reserved};
ghost use Rattle.regent_lex.specs.Scan.{identifier_at};

use crate::bytes::word_bytes;
use crate::fault::LexKind;
use crate::input_element::InputElement;
use crate::tables::word_of;
use crate::token::TokenKind;

/// Whether the bytes are a reserved word.
#[tactic(auto, unfolding(crate::specs::Words::is_reserved))]
fn is_reserved(word: &[u8]) -> bool
    ensures { result ≡ is_reserved word.now }
{
    word_of(word).is_some()
}

/// The word or the name at the front of a text.
#[tactic(auto, unfolding(crate::specs::Scan::identifier_at))]
pub fn identifier(text: &[u8]) -> InputElement
    ensures { result ≡ identifier_at text.now }
{
    let n = word_bytes(text);
    if is_reserved(&text[..n]) {
        InputElement::Token(TokenKind::Word, n)
    } else if n > 64 {
        InputElement::Fault(LexKind::NameTooLong, 0)
    } else {
        InputElement::Token(TokenKind::Name, n)
    }
}
