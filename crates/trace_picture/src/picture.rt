//! The whole picture.

ghost use Rattle.std.specs.Prelude.{◌≡◌, ◌≤◌, ◌++◌, IfOk, OnOk};
ghost use Rattle.trace_picture.specs.Pictures.{picture_of};
ghost use Rattle.trace_picture.specs.Drawings.{ground_text, head_text, height_of, picture_text, width_of};

use crate::boxes::push_boxes;
use crate::lanes::{lanes_of, push_lanes, push_level, push_ticks};
use crate::line::push_line;
use crate::marks::push_marks;
use crate::parts::push_all;
use crate::styles::{dark_text, legend_text, light_text};
use itoa::Buffer;
use run_journal::Entry;
use std::alloc::{AllocError, Global};

/// The width of the picture of this many entries.
fn width_of(entries: usize) -> usize
    ensures { result ≡ width_of entries }
{
    entries.max(56).saturating_add(10)
}

/// The height of the picture of this many lanes.
fn height_of(lanes: u32) -> u32
    requires { lanes ≤ 65536 }
    ensures { result ≡ height_of lanes }
{
    5 * lanes + 9
}

/// Adds the start of a picture of this width and height.
fn push_head(text: &mut String, width: usize, height: u32) -> Result<(), AllocError>
    ensures { OnOk result (text.new.bytes.items ≡ text.old.bytes.items ++ head_text width height) }
{
    push_all(
        text,
        &[
            "<svg xmlns=\"http://www.w3.org/2000/svg\" width=\"",
            Buffer::new().format(width),
            "0\" height=\"",
            Buffer::new().format(height),
            "0\" viewBox=\"0 0 ",
            Buffer::new().format(width),
            "0 ",
            Buffer::new().format(height),
            "0\" font-size=\"10\">\n",
        ],
    )
}

/// Adds the background of boxes and line.
fn push_ground(text: &mut String, entries: usize, lanes: u32) -> Result<(), AllocError>
    requires { lanes ≤ 65536 }
    ensures { OnOk result (text.new.bytes.items ≡ text.old.bytes.items ++ ground_text entries lanes) }
{
    text.push_str(light_text())?;
    text.push_str(dark_text())?;
    text.push_str(legend_text())?;
    push_lanes(text, entries, lanes)?;
    push_level(text, entries, lanes, 0)?;
    push_ticks(text, entries, lanes)
}

/// The picture of a journal: a lane for each seat, a box in it for each claim up to its give or
/// back, marks for copies and backs, and below a line that shows the number of operations in
/// progress.
pub fn picture_text(alloc: Global, journal: &[Entry]) -> Result<String, AllocError>
    ensures { IfOk result (λ text. text.bytes.items ≡ picture_text (picture_of journal.now)) }
{
    let lanes = lanes_of(journal);
    let mut text = String::new(alloc);
    push_head(&mut text, width_of(journal.len()), height_of(lanes))?;
    push_ground(&mut text, journal.len(), lanes)?;
    push_boxes(&mut text, journal)?;
    push_marks(&mut text, journal)?;
    push_line(&mut text, lanes, journal)?;
    text.push_str("</svg>\n</svg>\n")?;
    Ok(text)
}
