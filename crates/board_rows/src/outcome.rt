//! The line of an outcome.

use plain_values::Sequence;
use regent_tree::{Ending, Fault, Outcome, RootImage};
use std::alloc::{AllocError, Global};

/// The line of an outcome: the program's name, the text, and how it ended.
pub fn outcome_line(alloc: Global, name: &str, outcome: &Outcome) -> Result<String, AllocError> {
    let mut line = format!(in alloc; "{name}: ")?;
    push_outcome(&mut line, outcome)?;
    Ok(line)
}

fn push_outcome(line: &mut String, outcome: &Outcome) -> Result<(), AllocError> {
    push_text(line, outcome.text.as_slice())?;
    push_ending(line, &outcome.ending)?;
    line.push('\n')
}

/// The lines of a text.
fn push_text(line: &mut String, text: &[u8]) -> Result<(), AllocError> {
    let text = str::from_utf8(text).unwrap_or("no text");
    for part in text.lines() {
        line.push_str(part)?;
        line.push_str(" / ")?;
    }
    Ok(())
}

/// How an outcome ended.
fn push_ending(line: &mut String, ending: &Ending) -> Result<(), AllocError> {
    match ending {
        Ending::Finished(images) => push_images(line, images.as_slice()),
        Ending::Faulted(fault) => push_fault(line, fault),
        Ending::Broken => line.push_str("broken"),
    }
}

fn push_fault(line: &mut String, fault: &Fault) -> Result<(), AllocError> {
    write!(line, "{:?} at line {}", fault.kind, fault.line)
}

fn push_images(line: &mut String, images: &[RootImage]) -> Result<(), AllocError> {
    line.push_str("finished")?;
    for image in images {
        push_image(line, image)?;
    }
    Ok(())
}

/// What a root holds, field by field.
fn push_image(line: &mut String, image: &RootImage) -> Result<(), AllocError> {
    for field in image.fields.as_slice() {
        push_field(line, field)?;
    }
    Ok(())
}

/// The first numbers of a field.
fn push_field(line: &mut String, field: &Sequence<i64>) -> Result<(), AllocError> {
    line.push_str(" [")?;
    for number in field.as_slice().iter().take(8) {
        write!(line, " {number}")?;
    }
    line.push_str(" ]")
}
