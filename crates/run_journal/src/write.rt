//! The text of a journal.

ghost use Rattle.std.specs.Prelude.{◌≡◌, ◌++◌, IfOk, OnOk};
ghost use Rattle.run_journal.specs.Journals.{line_of, text_of, word_of};

use crate::entry::{Entry, StepKind};
use itoa::Buffer;
use std::alloc::{AllocError, Global};

fn word_of(kind: StepKind) -> &'static [u8]
    ensures { result.now ≡ word_of kind }
{
    match kind {
        StepKind::Claim => b"claim ",
        StepKind::Copy => b"copy ",
        StepKind::Give => b"give ",
        StepKind::Back => b"back ",
    }
}

/// Adds the line of an entry.
fn push_line(text: &mut Vec<u8>, entry: Entry) -> Result<(), AllocError>
    ensures { OnOk result (text.new.items ≡ text.old.items ++ line_of entry) }
{
    text.extend_from_slice(word_of(entry.kind))?;
    text.extend_from_slice(Buffer::new().format(entry.op.0).as_bytes())?;
    text.extend_from_slice(b" by ")?;
    text.extend_from_slice(Buffer::new().format(entry.seat).as_bytes())?;
    text.push(b'\n')?;
    Ok(())
}

/// The lines of a journal's entries, in order.
pub fn journal_text(alloc: Global, journal: &[Entry]) -> Result<Vec<u8>, AllocError>
    ensures { IfOk result (λ text. text.items ≡ text_of journal.now) }
{
    let mut text = Vec::new(alloc);
    for entry in journal {
        push_line(&mut text, *entry)?;
    }
    Ok(text)
}
