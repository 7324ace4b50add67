//! The marks of copies and of claims that are taken back.

ghost use Rattle.std.specs.Prelude.{◌≡◌, ◌+◌, ◌<◌, ◌^◌, ◌++◌, OnOk};
ghost use Rattle.trace_picture.specs.Pictures.{mark_kind, marks_from};
ghost use Rattle.trace_picture.specs.Drawings.{mark_text, mark_word, marks_text, note_text, shape_text};

use crate::parts::{push_all, push_title};
use itoa::Buffer;
use run_journal::{Entry, StepKind};
use std::alloc::AllocError;

/// The meaning of a mark: elements were copied, or a claim was taken back.
#[derive(Clone, Copy, Debug, PartialEq, Eq)]
pub enum MarkKind {
    Copy,
    Back,
}

/// The mark of an entry of a kind, if it has one.
fn mark_kind(kind: StepKind) -> Option<MarkKind>
    ensures { result ≡ mark_kind kind }
{
    match kind {
        StepKind::Copy => Some(MarkKind::Copy),
        StepKind::Back => Some(MarkKind::Back),
        StepKind::Claim | StepKind::Give => None,
    }
}

fn mark_word(kind: MarkKind) -> &'static str
    ensures { result.now ≡ mark_word kind }
{
    match kind {
        MarkKind::Copy => "copy",
        MarkKind::Back => "back",
    }
}

/// Adds the shape of a mark.
fn push_shape(
    text: &mut String,
    kind: MarkKind,
    entry: Entry,
    place: usize,
) -> Result<(), AllocError>
    ensures { OnOk result (text.new.bytes.items ≡ text.old.bytes.items
        ++ shape_text (record { kind = kind; op = entry.op.0; seat = entry.seat; place = place })) }
{
    push_all(
        text,
        &[
            "<use href=\"#",
            mark_word(kind),
            "\" x=\"",
            Buffer::new().format(place),
            "em\" y=\"",
            Buffer::new().format(3 * u32::from(entry.seat)),
            "em\">",
        ],
    )
}

/// Adds the meaning of a mark, and its line.
fn push_note(text: &mut String, kind: MarkKind, place: usize) -> Result<(), AllocError>
    requires { place + 1 < 2 ^ 64 }
    ensures { OnOk result (text.new.bytes.items ≡ text.old.bytes.items ++ note_text kind place) }
{
    push_all(
        text,
        &[
            mark_word(kind),
            " on line ",
            Buffer::new().format(place + 1),
            "</title></use>\n",
        ],
    )
}

/// Adds the mark of an entry at a place.
fn push_mark(
    text: &mut String,
    kind: MarkKind,
    entry: Entry,
    place: usize,
) -> Result<(), AllocError>
    requires { place + 1 < 2 ^ 64 }
    ensures { OnOk result (text.new.bytes.items ≡ text.old.bytes.items
        ++ mark_text (record { kind = kind; op = entry.op.0; seat = entry.seat; place = place })) }
{
    push_shape(text, kind, entry, place)?;
    push_title(text, entry)?;
    push_note(text, kind, place)
}

/// Adds the mark of each entry that has one.
pub fn push_marks(text: &mut String, journal: &[Entry]) -> Result<(), AllocError>
    ensures { OnOk result (text.new.bytes.items ≡ text.old.bytes.items ++ marks_text (marks_from 0 journal.now)) }
{
    for (place, entry) in journal.iter().enumerate() {
        if let Some(kind) = mark_kind(entry.kind) {
            push_mark(text, kind, *entry, place)?;
        }
    }
    Ok(())
}
