//! Classes of bytes, and what stands at the front of a text.

ghost use Rattle.std.specs.Prelude.{length, ◌≡◌, ◌≤◌};
ghost use Rattle.std.specs.List.{prefix_len};
ghost use Rattle.regent_lex.specs.Bytes.{in_line, is_blank, is_digit, is_letter, is_word_byte};
ghost use Rattle.regent_lex.specs.Bytes.{is_sign, next_are, next_is, next_is_equals, takes_equals};
ghost use Rattle.regent_lex.specs.Bytes.{dash, capital_l, opening_bracket};
ghost use Rattle.regent_lex.specs.Numbers.{is_fraction};

use crate::tables::mark_of;

pub fn is_blank(byte: u8) -> bool
    ensures { result ≡ is_blank byte }
{
    byte == b' ' || byte == b'\t' || byte == b'\n' || byte == b'\r'
}

pub fn is_digit(byte: u8) -> bool
    ensures { result ≡ is_digit byte }
{
    b'0' <= byte && byte <= b'9'
}

pub fn is_letter(byte: u8) -> bool
    ensures { result ≡ is_letter byte }
{
    b'a' <= byte && byte <= b'z' || b'A' <= byte && byte <= b'Z' || byte == b'_'
}

/// Whether the byte is a sign.
pub fn is_sign(byte: u8) -> bool
    ensures { result ≡ is_sign byte }
{
    mark_of(&[byte]).is_some()
}

/// Whether the byte and an equals sign behind it are one sign.
pub fn takes_equals(byte: u8) -> bool
    ensures { result ≡ takes_equals byte }
{
    mark_of(&[byte, b'=']).is_some()
}

/// How many letters, digits and `_` the text begins with.
pub fn word_bytes(text: &[u8]) -> usize
    ensures run { result ≡ prefix_len is_word_byte text.now }
    ensures within { result ≤ length text.now }
{
    text.iter()
        .take_while(|b| is_letter(**b) || is_digit(**b))
        .count()
}

/// How many digits the text begins with.
pub fn digits(text: &[u8]) -> usize
    ensures run { result ≡ prefix_len is_digit text.now }
    ensures within { result ≤ length text.now }
{
    text.iter().take_while(|b| is_digit(**b)).count()
}

/// How many bytes stand before the first line feed.
pub fn rest_of_line(text: &[u8]) -> usize
    ensures run { result ≡ prefix_len in_line text.now }
    ensures within { result ≤ length text.now }
{
    text.iter().take_while(|b| **b != b'\n').count()
}

pub fn begins_with_letter(text: &[u8]) -> bool
    ensures { result ≡ next_is is_letter text.now }
{
    match text {
        [] => false,
        [b, ..] => is_letter(*b),
    }
}

pub fn begins_with_equals(text: &[u8]) -> bool
    ensures { result ≡ next_is_equals text.now }
{
    match text {
        [] => false,
        [b, ..] => *b == b'=',
    }
}

/// Whether the text begins with a dot and a digit.
pub fn begins_with_fraction(text: &[u8]) -> bool
    ensures { result ≡ is_fraction text.now }
{
    match text {
        [b'.', next, ..] => is_digit(*next),
        _ => false,
    }
}

/// Whether the text begins with `--`.
pub fn begins_with_dashes(text: &[u8]) -> bool
    ensures { result ≡ next_are dash dash text.now }
{
    match text {
        [first, second, ..] => *first == b'-' && *second == b'-',
        _ => false,
    }
}

/// Whether the text begins with `[[`.
pub fn begins_with_brackets(text: &[u8]) -> bool
    ensures { result ≡ next_are opening_bracket opening_bracket text.now }
{
    match text {
        [first, second, ..] => *first == b'[' && *second == b'[',
        _ => false,
    }
}

/// Whether the text begins with `LL`.
pub fn begins_with_suffix(text: &[u8]) -> bool
    ensures { result ≡ next_are capital_l capital_l text.now }
{
    match text {
        [first, second, ..] => *first == b'L' && *second == b'L',
        _ => false,
    }
}
