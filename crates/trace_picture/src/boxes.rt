//! The boxes of segments.

ghost use Rattle.std.specs.Prelude.{◌≡◌, ◌+◌, ◌≤◌, ◌<◌, ◌++◌, OnOk, IfSome, drop, length};
ghost use Rattle.trace_picture.specs.Pictures.{boxes_from, ended_by, ending_at, ending_of, segment_ending};
ghost use Rattle.trace_picture.specs.Drawings.{IsAt, IsWithin, box_text, boxes_text, ending_class, ending_words, face_text, frame_text, place_behind, span_text};

use crate::parts::{push_all, push_title};
use itoa::Buffer;
use region_tree::OpNumber;
use run_journal::{Entry, StepKind};
use std::alloc::AllocError;

/// The end of a segment: submitted or taken back at a place of the journal, or not in it.
#[derive(Clone, Copy, Debug, PartialEq, Eq)]
pub enum Ending {
    Given(usize),
    TakenBack(usize),
    Unended,
}

/// The ending of a segment by an entry of a kind, if it ends one.
fn ending_at(place: usize, kind: StepKind) -> Option<Ending>
    ensures ending { result ≡ ending_at place kind }
    ensures at { IfSome result (IsAt place) }
{
    match kind {
        StepKind::Give => Some(Ending::Given(place)),
        StepKind::Back => Some(Ending::TakenBack(place)),
        StepKind::Claim | StepKind::Copy => None,
    }
}

/// The ending of a claim's segment by an entry, if it ends it.
fn ended_by(claim: Entry, place: usize, entry: Entry) -> Option<Ending>
    ensures ending { result ≡ ended_by claim place entry }
    ensures at { IfSome result (IsAt place) }
{
    if entry.op == claim.op && entry.seat == claim.seat {
        ending_at(place, entry.kind)
    } else {
        None
    }
}

/// The ending of a claim's segment, given the entries from a place on.
fn ending_of(claim: Entry, place: usize, journal: &[Entry]) -> Ending
    requires { place ≤ length journal.now }
    ensures ending { result ≡ ending_of claim place (drop place journal.now) }
    ensures within { IsWithin (length journal.now) result }
    ensures behind { place ≤ place_behind (length journal.now) result }
{
    for at in place..journal.len() {
        if let Some(ending) = ended_by(claim, at, journal[at]) {
            return ending;
        }
    }
    Ending::Unended
}

/// The ending of the segment of an entry at a place, if it is a claim.
fn segment_ending(journal: &[Entry], place: usize, entry: Entry) -> Option<Ending>
    requires { place < length journal.now }
    ensures ending { result ≡ segment_ending entry.kind (ending_of entry (place + 1) (drop (place + 1) journal.now)) }
    ensures within { IfSome result (IsWithin (length journal.now)) }
    ensures behind { IfSome result (λ ending. place < place_behind (length journal.now) ending) }
{
    match entry.kind {
        StepKind::Claim => Some(ending_of(entry, place + 1, journal)),
        StepKind::Copy | StepKind::Give | StepKind::Back => None,
    }
}

/// The place after the last one of a segment, in a journal with this many entries.
fn place_behind(entries: usize, ending: Ending) -> usize
    requires { IsWithin entries ending }
    ensures { result ≡ place_behind entries ending }
{
    match ending {
        Ending::Given(place) | Ending::TakenBack(place) => place + 1,
        Ending::Unended => entries,
    }
}

fn ending_class(ending: Ending) -> &'static str
    ensures { result.now ≡ ending_class ending }
{
    match ending {
        Ending::Given(_) => "given",
        Ending::TakenBack(_) => "back",
        Ending::Unended => "unended",
    }
}

/// Adds the ending of a segment, in words.
fn push_ending(text: &mut String, entries: usize, ending: Ending) -> Result<(), AllocError>
    requires { IsWithin entries ending }
    ensures { OnOk result (text.new.bytes.items ≡ text.old.bytes.items ++ ending_words ending) }
{
    match ending {
        Ending::Given(place) => push_all(
            text,
            &[", give on line ", Buffer::new().format(place + 1)],
        ),
        Ending::TakenBack(place) => push_all(
            text,
            &[", back on line ", Buffer::new().format(place + 1)],
        ),
        Ending::Unended => text.push_str(", without an end"),
    }
}

/// Adds the place and the size of a box.
fn push_frame(text: &mut String, seat: u16, begin: usize, width: usize) -> Result<(), AllocError>
    ensures { OnOk result (text.new.bytes.items ≡ text.old.bytes.items ++ frame_text seat begin width) }
{
    push_all(
        text,
        &[
            "<svg class=\"box\" x=\"",
            Buffer::new().format(begin),
            "em\" y=\"",
            Buffer::new().format(3 * u32::from(seat)),
            "em\" width=\"",
            Buffer::new().format(width),
            "em\" height=\"2em\">",
        ],
    )
}

/// Adds the visible part of a box: its colour, and the operation's number.
fn push_face(text: &mut String, op: OpNumber, ending: Ending) -> Result<(), AllocError>
    ensures { OnOk result (text.new.bytes.items ≡ text.old.bytes.items ++ face_text op.0 ending) }
{
    push_all(
        text,
        &[
            "<rect class=\"",
            ending_class(ending),
            "\" width=\"100%\" height=\"100%\"/><text x=\"50%\" y=\"50%\">",
            Buffer::new().format(op.0),
            "</text></svg>\n",
        ],
    )
}

/// Adds the lines on which a segment begins and ends.
fn push_span(
    text: &mut String,
    entries: usize,
    begin: usize,
    ending: Ending,
) -> Result<(), AllocError>
    requires begins { begin < entries }
    requires within { IsWithin entries ending }
    ensures { OnOk result (text.new.bytes.items ≡ text.old.bytes.items ++ span_text begin ending) }
{
    push_all(text, &["claim on line ", Buffer::new().format(begin + 1)])?;
    push_ending(text, entries, ending)?;
    text.push_str("</title>")
}

/// Adds the box of a claim at a place, in a journal with this many entries.
fn push_box(
    text: &mut String,
    entries: usize,
    claim: Entry,
    begin: usize,
    ending: Ending,
) -> Result<(), AllocError>
    requires begins { begin < entries }
    requires behind { begin < place_behind entries ending }
    requires within { IsWithin entries ending }
    ensures { OnOk result (text.new.bytes.items ≡ text.old.bytes.items ++ box_text entries
        (record { op = claim.op.0; seat = claim.seat; begin = begin; ending = ending })) }
{
    push_frame(
        text,
        claim.seat,
        begin,
        place_behind(entries, ending) - begin,
    )?;
    push_title(text, claim)?;
    push_span(text, entries, begin, ending)?;
    push_face(text, claim.op, ending)
}

/// Adds the box of each claim of a journal.
pub fn push_boxes(text: &mut String, journal: &[Entry]) -> Result<(), AllocError>
    ensures { OnOk result (text.new.bytes.items ≡ text.old.bytes.items
        ++ boxes_text (length journal.now) (boxes_from 0 journal.now)) }
{
    for (place, entry) in journal.iter().enumerate() {
        if let Some(ending) = segment_ending(journal, place, *entry) {
            push_box(text, journal.len(), *entry, place, ending)?;
        }
    }
    Ok(())
}
