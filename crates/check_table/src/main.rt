//! Gives each text of a table to a call, and prints its name with the status and what is written.
//!
//! The table comes on the standard input. A line `== NAME` begins a text of that name, which is given to
//! `check t.rg`; where `: WORDS` follow, it is given to a call with these words. The lines up to the
//! next such line are the text's. What stands before the first says what the table is. A run whose words name no workers is
//! made by 0, 1, 2 and 64 of them, too, and must tell the same.
#![tactic(auto)]

mod named_text;

use named_text::NamedText;
use std::io;
use std::sync::Wait;
use std::thread::Threads;

/// Prints a line for a text: its name, and what its call tells.
fn print_told<R: Print + AllocGlobal + Threads + Wait + Sync>(
    rt: &R,
    text: &Option<NamedText>,
) -> io::Result<()> {
    match text {
        Some(text) => {
            let told = text.told(rt, rt.alloc())?;
            println!(rt; "{}: {}", text.name(), told.as_str().trim_end())
        }
        None => Ok(()),
    }
}

/// The text that a line begins, after its `== `.
fn begun(rt: &HostRuntime, head: &str) -> io::Result<NamedText> {
    let (name, words) = head.split_once(':').unwrap_or((head, "check t.rg"));
    Ok(NamedText::new(rt.alloc(), name, words)?)
}

fn main(rt: HostRuntime) -> io::Result<()> {
    let mut text = None;
    for line in rt.lines(rt.alloc()) {
        let line = line?;
        match (line.as_str().strip_prefix("== "), &mut text) {
            (Some(head), _) => {
                print_told(&rt, &text)?;
                text = Some(begun(&rt, head)?);
            }
            (None, Some(text)) => text.add_line(line.as_str())?,
            (None, None) => (),
        }
    }
    print_told(&rt, &text)
}
