//! Gives calls to a graph, one play after the other, over both finders, and prints what they answer.
//!
//! The plays come on the standard input. A line `== NAME` begins one; where `: NUMBER` follows, its finders refuse an
//! operation behind so many. Each line up to the next such line is a call. What stands before the first says how
//! calls are written. Behind the plays stand the steps of both finders, and their histories.
#![tactic(auto)]

ghost use Rattle.std.specs.Prelude.{◌≡◌, ◌<◌};

mod counted;
mod divided;
mod family;
mod histories;
mod lines;
mod listing;
mod needs;
mod play;
mod plays;
mod refusing;
mod state_text;
mod walks;

use histories::history;
use plays::Plays;
use region_finder::Steps;
use region_walk::{ScanFinder, WalkFinder};
use std::io;
use std::marker::Brand;
use std::sync::ledger::{Blank, Ledger};
use walks::print_walk;

/// How many histories there are.
const HISTORIES: u64 = 300;

/// The graphs of a play, by what stands behind its name.
fn begun(rt: &HostRuntime, head: &str) -> io::Result<Plays> {
    let (_, number) = head.split_once(": ").unwrap_or((head, ""));
    let adds_before = number.parse::<u64>().unwrap_or(u64::MAX);
    Ok(Plays::new(rt.alloc(), adds_before)?)
}

/// Begins a play, or makes the call of a line in the one that was begun last.
fn print_line<L: Ledger>(
    rt: &HostRuntime,
    plays: &mut Option<Plays>,
    line: &str,
    steps: &mut Steps<L>,
) -> io::Result<()> {
    if let Some(head) = line.strip_prefix("== ") {
        *plays = Some(begun(rt, head)?);
        return println!(rt; "{line}");
    }
    match plays {
        Some(plays) => {
            let told = plays.told(rt.alloc(), line, steps)?;
            println!(rt; "{line}: {told}")
        }
        None => Ok(()),
    }
}

fn print_plays<L: Ledger>(rt: &HostRuntime, steps: &mut Steps<L>) -> io::Result<()> {
    let mut plays = None;
    for line in rt.lines(rt.alloc()) {
        let line = line?;
        print_line(rt, &mut plays, line.as_str(), steps)?;
    }
    Ok(())
}

fn print_histories<L: Ledger>(rt: &HostRuntime, steps: &mut Steps<L>) -> io::Result<()> {
    let mut same = 0_u64;
    let mut some = 0_u64;
    for number in 0..HISTORIES {
        let told = history(rt.alloc(), number, steps)?;
        same = same.saturating_add(u64::from(told.same));
        some = some.saturating_add(u64::from(told.operations > 0));
    }
    println!(rt; "== {HISTORIES} histories of both finders")?;
    println!(rt; "with the same answers: {same}")?;
    println!(rt;
        "with operations that were told in most of them: {}",
        some > HISTORIES / 2
    )
}

/// Prints all that is told.
fn print_all<L: Ledger>(rt: &HostRuntime, blank: Blank) -> io::Result<()>
    requires name { blank.name ≡ L.name }
    requires parts { blank.parts ≡ L.parts }
    requires some { 0 < L.parts }
{
    let mut steps = Steps::<L>::new(blank);
    print_plays(rt, &mut steps)?;
    print_walk(rt, "each tested", ScanFinder::new(rt.alloc())?, &mut steps)?;
    print_walk(rt, "walked", WalkFinder::new(rt.alloc())?, &mut steps)?;
    print_histories(rt, &mut steps)
}

fn main(rt: HostRuntime) -> io::Result<()> {
    print_all::<Brand>(&rt, Blank::new(1))
}
