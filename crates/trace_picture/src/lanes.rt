//! Lanes of seats, and the background of boxes and line.

ghost use Rattle.std.specs.Prelude.{◌≡◌, ◌+◌, ◌*◌, ◌≤◌, ◌<◌, ◌/◌, ◌^◌, ◌++◌, OnOk};
ghost use Rattle.trace_picture.specs.Pictures.{lanes_of};
ghost use Rattle.trace_picture.specs.Drawings.{lane_text, lanes_text, level_text, tick_text, ticks_text, zero_line};

use crate::parts::push_all;
use itoa::Buffer;
use run_journal::Entry;
use std::alloc::AllocError;

/// One lane more than the greatest seat.
pub fn lanes_of(journal: &[Entry]) -> u32
    ensures lanes { result ≡ lanes_of journal.now }
    ensures bound { result ≤ 65536 }
{
    let mut lanes = 0;
    for entry in journal {
        lanes = lanes.max(u32::from(entry.seat) + 1);
    }
    lanes
}

/// The distance of the number 0 from the top of the lanes.
pub fn zero_line(lanes: u32) -> u32
    requires { lanes ≤ 65536 }
    ensures { result ≡ zero_line lanes }
{
    5 * lanes + 1
}

/// Adds the lane of a seat.
fn push_lane(text: &mut String, entries: usize, seat: u32) -> Result<(), AllocError>
    requires { seat < 65536 }
    ensures { OnOk result (text.new.bytes.items ≡ text.old.bytes.items ++ lane_text entries seat) }
{
    push_all(
        text,
        &[
            "<rect class=\"lane\" y=\"",
            Buffer::new().format(3 * seat),
            "em\" width=\"",
            Buffer::new().format(entries),
            "em\" height=\"2em\"/><text class=\"side\" x=\"-1em\" y=\"",
            Buffer::new().format(3 * seat + 1),
            "em\">seat ",
            Buffer::new().format(seat),
            "</text>\n",
        ],
    )
}

/// Adds the line for a number of operations in progress.
pub fn push_level(
    text: &mut String,
    entries: usize,
    lanes: u32,
    number: u32,
) -> Result<(), AllocError>
    requires lanes { lanes ≤ 65536 }
    requires number { number ≤ lanes }
    ensures { OnOk result (text.new.bytes.items ≡ text.old.bytes.items ++ level_text entries lanes number) }
{
    push_all(
        text,
        &[
            "<svg y=\"",
            Buffer::new().format(zero_line(lanes) - 2 * number),
            "em\"><line class=\"grid\" x2=\"",
            Buffer::new().format(entries),
            "em\"/><text class=\"side\" x=\"-1em\">",
            Buffer::new().format(number),
            "</text></svg>\n",
        ],
    )
}

/// Adds all lanes, with a line for each number above 0.
pub fn push_lanes(text: &mut String, entries: usize, lanes: u32) -> Result<(), AllocError>
    requires { lanes ≤ 65536 }
    ensures { OnOk result (text.new.bytes.items ≡ text.old.bytes.items ++ lanes_text entries lanes lanes) }
{
    for seat in 0..lanes {
        push_lane(text, entries, seat)?;
        push_level(text, entries, lanes, seat + 1)?;
    }
    Ok(())
}

/// Adds the line after an entry, by its number of tens.
fn push_tick(text: &mut String, lanes: u32, tens: usize) -> Result<(), AllocError>
    requires lanes { lanes ≤ 65536 }
    requires fits { 10 * tens < 2 ^ 64 }
    ensures { OnOk result (text.new.bytes.items ≡ text.old.bytes.items ++ tick_text lanes tens) }
{
    push_all(
        text,
        &[
            "<svg x=\"",
            Buffer::new().format(10 * tens),
            "em\"><line class=\"grid\" y1=\"-1em\" y2=\"",
            Buffer::new().format(zero_line(lanes)),
            "em\"/><text class=\"tick\" y=\"-1.5em\">",
            Buffer::new().format(10 * tens),
            "</text></svg>\n",
        ],
    )
}

/// Adds the line after each tenth entry.
pub fn push_ticks(text: &mut String, entries: usize, lanes: u32) -> Result<(), AllocError>
    requires { lanes ≤ 65536 }
    ensures { OnOk result (text.new.bytes.items ≡ text.old.bytes.items ++ ticks_text lanes (entries / 10)) }
{
    for tens in 0..entries / 10 {
        push_tick(text, lanes, tens + 1)?;
    }
    Ok(())
}
