//! What is printed of a row.

use crate::driving::drive;
use crate::order::Order;
use crate::outcome::outcome_line;
use crate::row::Row;
use crate::steps::{gives_line, journal_lines, steps_line};
use crate::strangers::strangers_come_back;
use plain_run::run_in_order;
use regent_tree::Outcome;
use std::alloc::{AllocError, Global};
use std::io;
use task_code::Job;
use task_core::Board;

/// What is printed of a board that was driven.
#[derive(Clone, Copy)]
enum View {
    /// A short journal: a line for each entry.
    Journal,
    /// Whether it has the outcome, and how many steps it made.
    Steps,
    /// The operations of the gives, in their order.
    Gives,
}

/// A part of what is printed of a row.
#[derive(Clone, Copy)]
enum Part {
    /// The outcome of the run in order.
    Outcome,
    /// What is seen of a board that is driven in an order.
    Board(Order, View),
    /// Whether strangers come back.
    Strangers,
}

const PARTS: [Part; 10] = [
    Part::Outcome,
    Part::Board(Order::OneByOne, View::Journal),
    Part::Board(Order::OneByOne, View::Steps),
    Part::Board(Order::OldestFirst, View::Steps),
    Part::Board(Order::NewestFirst, View::Steps),
    Part::Board(Order::TakenBack, View::Steps),
    Part::Board(Order::FirstIsSlow, View::Steps),
    Part::Board(Order::LatestFirst, View::Steps),
    Part::Board(Order::LatestFirst, View::Gives),
    Part::Strangers,
];

impl Part {
    /// Whether it is printed of a row with this name. Gives are printed where two tasks fail.
    fn is_printed_of(self, name: &str) -> bool {
        match self {
            Part::Board(_, View::Gives) => name.starts_with("two_faults"),
            Part::Outcome | Part::Board(_, _) | Part::Strangers => true,
        }
    }
}

/// What is seen of a board that was driven in an order, to its end or not.
fn seen(
    alloc: Global,
    name: &str,
    outcome: &Outcome,
    order: Order,
    view: View,
    ended: Result<bool, AllocError>,
    board: &Board,
) -> Result<String, AllocError> {
    let ended = ended?;
    match view {
        View::Journal => journal_lines(alloc, board.journal()),
        View::Steps => steps_line(alloc, name, outcome, order, ended, board),
        View::Gives => gives_line(alloc, order, board.journal()),
    }
}

/// What is seen of a board that is driven in an order.
fn seen_of(
    alloc: Global,
    name: &str,
    job: &Job,
    outcome: &Outcome,
    order: Order,
    view: View,
) -> Result<String, AllocError> {
    let mut board = Board::open(alloc, job.copy()?)?;
    let ended = drive(alloc, &mut board, order);
    seen(alloc, name, outcome, order, view, ended, &board)
}

fn strangers_line(
    alloc: Global,
    come_back: Result<bool, AllocError>,
) -> Result<String, AllocError> {
    let line = if come_back? {
        "  strangers come back\n"
    } else {
        "  strangers don't come back\n"
    };
    String::from_str(alloc, line)
}

/// The text of a part.
fn text_of(
    alloc: Global,
    name: &str,
    job: &Job,
    outcome: &Outcome,
    part: Part,
) -> Result<String, AllocError> {
    match part {
        Part::Outcome => outcome_line(alloc, name, outcome),
        Part::Board(order, view) => seen_of(alloc, name, job, outcome, order, view),
        Part::Strangers => strangers_line(alloc, strangers_come_back(alloc, job)),
    }
}

fn print_text(rt: &HostRuntime, text: Result<String, AllocError>) -> io::Result<()> {
    let text = text?;
    print!(rt; "{}", text.as_str())
}

fn print_parts(rt: &HostRuntime, name: &str, job: &Job, outcome: &Outcome) -> io::Result<()> {
    for part in PARTS {
        if part.is_printed_of(name) {
            print_text(rt, text_of(rt.alloc(), name, job, outcome, part))?;
        }
    }
    Ok(())
}

fn print_job(rt: &HostRuntime, name: &str, job: &Job) -> io::Result<()> {
    let outcome = run_in_order(rt.alloc(), job)?;
    print_parts(rt, name, job, &outcome)
}

fn print_parts_of(rt: &HostRuntime, row: &Row) -> io::Result<()> {
    match row.job(rt.alloc())? {
        Some(job) => print_job(rt, row.name(), &job),
        None => println!(rt; "{}: refused", row.name()),
    }
}

/// Prints the lines of a row: its outcome, and what its boards did.
pub fn print_row(rt: &HostRuntime, row: &Option<Row>) -> io::Result<()> {
    match row {
        Some(row) => print_parts_of(rt, row),
        None => Ok(()),
    }
}
