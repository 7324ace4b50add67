//! What tokens stand for.

ghost use Rattle.std.specs.Prelude.{IfOk, false, ◌<◌, ◌^◌, ◌≡◌};
ghost use Rattle.regent_lex.specs.declared.token.TokenKind.TheVariants.{Number, Quoted};
ghost use Rattle.regent_lex.specs.Places.{Spells};
ghost use Rattle.regent_lex.specs.Values.{escaped, has_suffix, number_value, quoted_bytes};
ghost use Rattle.regent_lex.specs.Values.{unescaped};

use crate::bytes::{begins_with_suffix, digits};
use crate::numbers::value;
use std::alloc::{AllocError, Global};

/// The value of a number, without its `LL`.
pub fn number_value(spelling: &[u8]) -> u64
    requires { Spells Number spelling.now }
    ensures value { result ≡ number_value spelling.now }
    ensures small { result < 2 ^ 63 }
{
    value(&spelling[..digits(spelling)]).unwrap()
}

/// Whether a number has `LL` behind its digits.
pub fn has_suffix(spelling: &[u8]) -> bool
    ensures { result ≡ has_suffix spelling.now }
{
    begins_with_suffix(&spelling[digits(spelling)..])
}

/// What a byte stands for behind a backslash.
fn escaped(byte: u8) -> u8
    ensures { result ≡ escaped byte }
{
    if byte == b'n' {
        b'\n'
    } else if byte == b't' {
        b'\t'
    } else {
        byte
    }
}

/// The bytes that a string's content stands for.
fn unescaped(alloc: Global, content: &[u8]) -> Result<Vec<u8>, AllocError>
    ensures { IfOk result (λ bytes. bytes.items ≡ unescaped false content.now) }
{
    let mut bytes = Vec::new(alloc);
    let mut behind = false;
    for byte in content {
        if behind {
            bytes.push(escaped(*byte))?;
            behind = false;
        } else if *byte == b'\\' {
            behind = true;
        } else {
            bytes.push(*byte)?;
        }
    }
    Ok(bytes)
}

/// The bytes that a string with its quotes stands for.
pub fn quoted_bytes(alloc: Global, spelling: &[u8]) -> Result<Vec<u8>, AllocError>
    requires { Spells Quoted spelling.now }
    ensures { IfOk result (λ bytes. bytes.items ≡ quoted_bytes spelling.now) }
{
    unescaped(alloc, &spelling[1..spelling.len() - 1])
}
