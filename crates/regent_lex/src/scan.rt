//! The scanner's step: what stands at the front of a text.

ghost use Rattle.std.specs.Prelude.{IfNone, IfSome, [], length, ◌<◌, ◌^◌, ◌≡◌};
ghost use Rattle.regent_lex.specs.Begins.{Begins};
ghost use Rattle.regent_lex.specs.Scan.{first_element, sign_at};

use crate::bytes::{
    begins_with_dashes, begins_with_equals, is_blank, is_digit, is_letter, is_sign, takes_equals,
};
use crate::fault::LexKind;
use crate::input_element::InputElement;
use crate::numbers::number;
use crate::strings::string;
use crate::token::TokenKind;
use crate::trivia::comment;
use crate::words::identifier;

/// The sign at the front of a text that begins with the byte.
#[tactic(auto, unfolding(crate::specs::Scan::sign_at))]
fn sign(byte: u8, after: &[u8]) -> InputElement
    ensures { result ≡ sign_at byte after.now }
{
    if takes_equals(byte) && begins_with_equals(after) {
        InputElement::Token(TokenKind::Sign, 2)
    } else if is_sign(byte) {
        InputElement::Token(TokenKind::Sign, 1)
    } else {
        InputElement::Fault(LexKind::BadByte, 0)
    }
}

#[tactic(auto, unfolding(crate::specs::Scan::element_at))]
fn scanned(text: &[u8]) -> Option<InputElement>
    requires { length text.now < 2 ^ 60 }
    ensures { result ≡ first_element text.now }
{
    match text {
        [] => None,
        [byte, after @ ..] => {
            if is_blank(*byte) {
                Some(InputElement::Trivia(1))
            } else if is_letter(*byte) {
                Some(identifier(text))
            } else if is_digit(*byte) {
                Some(number(text))
            } else if *byte == b'"' {
                Some(string(after))
            } else if begins_with_dashes(text) {
                Some(comment(&after[1..]))
            } else {
                Some(sign(*byte, after))
            }
        }
    }
}

/// What stands at the front of the text, unless it is empty.
pub fn first_element(text: &[u8]) -> Option<InputElement>
    requires { length text.now < 2 ^ 60 }
    ensures none { IfNone result (text.now ≡ []) }
    ensures some { IfSome result (λ input_element. Begins input_element text.now) }
{
    scanned(text)
}
