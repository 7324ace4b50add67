//! Strings.

ghost use Rattle.std.specs.Prelude.{length, ◌<◌, ◌^◌, ◌≡◌};
ghost use Rattle.regent_lex.specs.Scan.{string_at};

use crate::fault::LexKind;
use crate::input_element::InputElement;
use crate::search::{Wanted, search};
use crate::token::TokenKind;

/// The string whose opening quote stands right before the bytes.
#[tactic(auto, unfolding(crate::specs::Scan::string_at))]
pub fn string(bytes: &[u8]) -> InputElement
    requires { length bytes.now < 2 ^ 60 }
    ensures { result ≡ string_at bytes.now }
{
    let Some(n) = search(Wanted::ClosingQuote, bytes) else {
        return InputElement::Fault(LexKind::Unclosed, 0);
    };
    match search(Wanted::BadContent, bytes) {
        None => InputElement::Token(TokenKind::Quoted, n + 2),
        Some(bad) => InputElement::Fault(LexKind::BadByte, bad + 1),
    }
}
