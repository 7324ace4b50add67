//! Lines of the steps that a board made.

use crate::order::Order;
use regent_tree::Outcome;
use run_journal::{Entry, StepKind};
use std::alloc::{AllocError, Global};
use task_core::Board;

/// A line for each entry of a journal, where it is short.
pub fn journal_lines(alloc: Global, journal: &[Entry]) -> Result<String, AllocError> {
    let mut lines = String::new(alloc);
    if journal.len() <= 3 {
        push_entries(&mut lines, journal)?;
    }
    Ok(lines)
}

fn push_entries(lines: &mut String, journal: &[Entry]) -> Result<(), AllocError> {
    for entry in journal {
        writeln!(lines, "  {:?} {} by {}", entry.kind, entry.op.0, entry.seat)?;
    }
    Ok(())
}

/// The line of the gives of a journal: their operations, in order.
pub fn gives_line(alloc: Global, order: Order, journal: &[Entry]) -> Result<String, AllocError> {
    let mut line = format!(in alloc; "  given by {order:?}:")?;
    push_gives(&mut line, journal)?;
    Ok(line)
}

fn push_gives(line: &mut String, journal: &[Entry]) -> Result<(), AllocError> {
    for entry in journal {
        if entry.kind == StepKind::Give {
            write!(line, " {}", entry.op.0)?;
        }
    }
    line.push('\n')
}

/// The line of an order: whether a board that is driven in it has a result, and this outcome; and, but for examples, how many
/// steps of each kind it made.
pub fn steps_line(
    alloc: Global,
    name: &str,
    outcome: &Outcome,
    order: Order,
    ended: bool,
    board: &Board,
) -> Result<String, AllocError> {
    let word = word(outcome, ended, board);
    if !ended || name.starts_with("example_") {
        format!(in alloc; "  {order:?}: {word}\n")
    } else {
        counts_line(alloc, order, word, board)
    }
}

/// What a board has that was driven to its end, or not.
fn word(outcome: &Outcome, ended: bool, board: &Board) -> &'static str {
    if !ended {
        "no result"
    } else if board.result() == Some(outcome) {
        "same"
    } else {
        "another outcome"
    }
}

/// The same with the steps.
fn counts_line(
    alloc: Global,
    order: Order,
    word: &str,
    board: &Board,
) -> Result<String, AllocError> {
    format!(in alloc;
        "  {order:?}: {word}, {} claims, {} copies, {} gives, {} backs\n",
        count(board, StepKind::Claim),
        count(board, StepKind::Copy),
        count(board, StepKind::Give),
        count(board, StepKind::Back)
    )
}

/// How many steps of a kind the journal has.
fn count(board: &Board, kind: StepKind) -> usize {
    board
        .journal()
        .iter()
        .filter(|entry| entry.kind == kind)
        .count()
}
