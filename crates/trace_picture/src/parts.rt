//! Parts of elements: numbers, lengths and the starts of titles.

ghost use Rattle.std.specs.Prelude.{◌≡◌, ◌++◌, OnOk, flat_map};
ghost use Rattle.trace_picture.specs.Drawings.{title_text};

use itoa::Buffer;
use run_journal::Entry;
use std::alloc::AllocError;

/// Adds all pieces in order.
pub fn push_all(text: &mut String, pieces: &[&str]) -> Result<(), AllocError>
    ensures { OnOk result (text.new.bytes.items ≡ text.old.bytes.items ++ flat_map (λ piece. piece.now) pieces.now) }
{
    for piece in pieces {
        text.push_str(piece)?;
    }
    Ok(())
}

/// Adds the start of an entry's title.
pub fn push_title(text: &mut String, entry: Entry) -> Result<(), AllocError>
    ensures { OnOk result (text.new.bytes.items ≡ text.old.bytes.items ++ title_text entry.op.0 entry.seat) }
{
    push_all(
        text,
        &[
            "<title>operation ",
            Buffer::new().format(entry.op.0),
            " by seat ",
            Buffer::new().format(entry.seat),
            ": ",
        ],
    )
}
