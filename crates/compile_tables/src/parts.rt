//! What a text of `printf` comes to: parts of text, and numbers between them.

ghost use Rattle.std.specs.Prelude.{◌≡◌, [], ◌∷◌, ◌++◌, List, ℕ, IfOk, OnOk};
ghost use Rattle.code_rules.specs.Prints.{parts_of, text_part};
ghost use Rattle.task_code.specs.declared.instr.PrintPart.TheVariants.{Number};
ghost use Rattle.compile_tables.specs.Parts.{parts_at, parts_by};

use plain_values::Sequence;
use std::alloc::{AllocError, Global};
use task_code::PrintPart;

/// What a byte of a format does: the next one stands behind `%`, it is a byte of text, or it ends a number.
#[derive(Clone, Copy, Debug, PartialEq, Eq)]
pub enum Piece {
    Silent,
    Byte(u8),
    Number,
}

fn piece_of(after: bool, byte: u8) -> Piece
    ensures { (text rest : List ℕ) → parts_at after text (byte ∷ rest) ≡ parts_by result text rest }
{
    if after {
        if byte == b'%' {
            Piece::Byte(b'%')
        } else if byte == b'l' {
            Piece::Silent
        } else {
            Piece::Number
        }
    } else {
        if byte == b'%' {
            Piece::Silent
        } else {
            Piece::Byte(byte)
        }
    }
}

/// Puts the text before what comes next, where there is any.
fn end_text(parts: &mut Sequence<PrintPart>, text: Sequence<u8>) -> Result<(), AllocError>
    ensures { OnOk result (parts.new ≡ parts.old ++ text_part text []) }
{
    if text.is_empty() {
        return Ok(());
    }
    parts.push(PrintPart::Text(text))
}

fn end_number(parts: &mut Sequence<PrintPart>, text: Sequence<u8>) -> Result<(), AllocError>
    ensures { OnOk result (parts.new ≡ parts.old ++ text_part text (Number ∷ [])) }
{
    end_text(parts, text)?;
    parts.push(PrintPart::Number)
}

/// The parts of a `printf`'s text. Behind `%` each `l` is skipped, `%` is a byte of text, and any other byte
/// ends a number: in a checked text it is `d`.
pub fn parts_of(alloc: Global, format: &[u8]) -> Result<Sequence<PrintPart>, AllocError>
    ensures { IfOk result (λ parts. parts ≡ parts_of [] format.now) }
{
    let mut parts = Sequence::new(alloc);
    let mut text = Sequence::new(alloc);
    let mut after = false;
    for byte in format {
        match piece_of(after, *byte) {
            Piece::Silent => after = true,
            Piece::Byte(shown) => {
                text.push(shown)?;
                after = false;
            }
            Piece::Number => {
                end_number(&mut parts, text)?;
                text = Sequence::new(alloc);
                after = false;
            }
        }
    }
    end_text(&mut parts, text)?;
    Ok(parts)
}
