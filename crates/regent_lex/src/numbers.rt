//! Numbers.

ghost use Rattle.std.specs.Prelude.{MatchOption, drop, length, ◌+◌, ◌<◌, ◌^◌, ◌≡◌, ◌≤◌};
ghost use Rattle.std.specs.List.{AllPass};
ghost use Rattle.regent_lex.specs.Bytes.{is_digit};
ghost use Rattle.regent_lex.specs.Numbers.{value_of};
ghost use Rattle.regent_lex.specs.Scan.{number_at, number_before};

use crate::bytes::{begins_with_fraction, begins_with_letter, begins_with_suffix, digits};
use crate::fault::LexKind;
use crate::input_element::InputElement;
use crate::token::TokenKind;

/// The number that digits spell, where it is below 2^63.
pub fn value(digits: &[u8]) -> Option<u64>
    requires { AllPass is_digit digits.now }
    ensures { MatchOption result (2 ^ 63 ≤ value_of digits.now)
        (λ n. (n ≡ value_of digits.now) × (n < 2 ^ 63)) }
{
    let mut n: u64 = 0;
    for digit in digits {
        // Ten times as much is too much.
        if n >= 1 << 60 {
            return None;
        }
        n = n * 10 + u64::from(*digit - b'0');
    }
    if n < 1 << 63 { Some(n) } else { None }
}

/// A number of the text's first `n` bytes, or a fault right behind it.
fn number_before(n: usize, text: &[u8]) -> InputElement
    requires { n ≤ length text.now }
    ensures { result ≡ number_before n (drop n text.now) }
{
    let after = &text[n..];
    if begins_with_letter(after) || begins_with_fraction(after) {
        InputElement::Fault(LexKind::BadByte, n)
    } else {
        InputElement::Token(TokenKind::Number, n)
    }
}

/// The number at the front of a text.
#[tactic(auto, unfolding(crate::specs::Scan::number_at))]
pub fn number(text: &[u8]) -> InputElement
    requires { length text.now < 2 ^ 60 }
    ensures { result ≡ number_at text.now }
{
    let n = digits(text);
    if value(&text[..n]).is_none() {
        return InputElement::Fault(LexKind::NumberTooLarge, 0);
    }
    if begins_with_suffix(&text[n..]) {
        number_before(n + 2, text)
    } else {
        number_before(n, text)
    }
}
