//! Drives boards on the jobs of a table of programs, and prints the outcomes.
//!
//! The table comes on the standard input. A line `== NAME` begins a program of that name; where `: NUMBERS` follow, they are
//! its inputs. The lines up to the next such line are its text. Each program is run in order, and on a board in each of
//! six orders of claims and gives; a run that another board's claim is answered with is given to each board, too.
#![tactic(auto)]

mod driving;
mod order;
mod outcome;
mod printing;
mod row;
mod steps;
mod strangers;

use printing::print_row;
use row::Row;
use std::io;

/// Prints the row that has ended, and begins the one of a line after its `== `.
fn begin(rt: &HostRuntime, row: &mut Option<Row>, head: &str) -> io::Result<()> {
    print_row(rt, row)?;
    let (name, numbers) = head.split_once(':').unwrap_or((head, ""));
    *row = Some(Row::new(rt.alloc(), name, numbers)?);
    Ok(())
}

/// Adds a line to a row; one before the first row is passed over.
fn add_line(row: &mut Option<Row>, line: &str) -> io::Result<()> {
    if let Some(row) = row {
        row.add_line(line)?;
    }
    Ok(())
}

fn take_line(rt: &HostRuntime, row: &mut Option<Row>, line: io::Result<String>) -> io::Result<()> {
    let line = line?;
    match line.as_str().strip_prefix("== ") {
        Some(head) => begin(rt, row, head),
        None => add_line(row, line.as_str()),
    }
}

fn print_rows(rt: &HostRuntime, row: &mut Option<Row>) -> io::Result<()> {
    for line in rt.lines(rt.alloc()) {
        take_line(rt, row, line)?;
    }
    print_row(rt, row)
}

fn main(rt: HostRuntime) -> io::Result<()> {
    print_rows(&rt, &mut None)
}
