//! The line that shows the number of operations in progress.

ghost use Rattle.std.specs.Prelude.{◌≡◌, ◌≤◌, ◌++◌, OnOk};
ghost use Rattle.trace_picture.specs.Pictures.{step_of, steps_of};
ghost use Rattle.trace_picture.specs.Drawings.{line_text, start_text, step_text, steps_text};

use crate::lanes::zero_line;
use crate::parts::push_all;
use itoa::Buffer;
use run_journal::{Entry, StepKind};
use std::alloc::AllocError;

/// The part that an entry of a kind adds to the line.
fn step_text(kind: StepKind) -> &'static str
    ensures { result.now ≡ step_text (step_of kind) }
{
    match kind {
        StepKind::Claim => "v-20h10",
        StepKind::Copy => "h10",
        StepKind::Give | StepKind::Back => "v20h10",
    }
}

fn push_steps(text: &mut String, journal: &[Entry]) -> Result<(), AllocError>
    ensures { OnOk result (text.new.bytes.items ≡ text.old.bytes.items ++ steps_text (steps_of journal.now)) }
{
    for entry in journal {
        text.push_str(step_text(entry.kind))?;
    }
    Ok(())
}

/// Adds the start of the line, below the lanes.
fn push_start(text: &mut String, lanes: u32) -> Result<(), AllocError>
    requires { lanes ≤ 65536 }
    ensures { OnOk result (text.new.bytes.items ≡ text.old.bytes.items ++ start_text lanes) }
{
    push_all(
        text,
        &[
            "<svg y=\"",
            Buffer::new().format(zero_line(lanes)),
            "em\"><path class=\"line\" d=\"M0 0",
        ],
    )
}

/// Adds the line, below the lanes.
pub fn push_line(text: &mut String, lanes: u32, journal: &[Entry]) -> Result<(), AllocError>
    requires { lanes ≤ 65536 }
    ensures { OnOk result (text.new.bytes.items ≡ text.old.bytes.items ++ line_text lanes (steps_of journal.now)) }
{
    push_start(text, lanes)?;
    push_steps(text, journal)?;
    text.push_str("\"/></svg>\n")
}
