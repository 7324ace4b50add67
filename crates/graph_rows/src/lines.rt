//! Calls of a graph as lines of text.

use crate::needs::needs_of;
use crate::play::Play;
use crate::state_text::state;
use dependence_graph::{How, Waiting};
use region_finder::{Finder, Steps};
use region_forest::Forest;
use region_tree::{Needs, OpNumber};
use std::alloc::{AllocError, Global};
use std::sync::ledger::Ledger;

/// The needs of one operation for each word.
fn needs_of_all(alloc: Global, forest: &Forest, words: &str) -> Result<Vec<Needs>, AllocError> {
    let mut all = Vec::new(alloc);
    for word in words.split_whitespace() {
        all.push(needs_of(alloc, forest, word)?)?;
    }
    Ok(all)
}

/// Issues children with these needs. An issue that comes to want of memory is refused.
fn issue<F: Finder + Drop, L: Ledger>(
    alloc: Global,
    play: &mut Play<F>,
    parent: OpNumber,
    words: &str,
    steps: &mut Steps<L>,
) -> Result<String, AllocError> {
    let needs = needs_of_all(alloc, play.forest(), words)?;
    match play.issue(parent, needs, steps) {
        Ok(Some(issued)) => format!(in alloc; "{} from {}", issued.count, issued.first.0),
        Ok(None) => String::from_str(alloc, "no call"),
        Err(_) => String::from_str(alloc, "refused"),
    }
}

/// What an operation is to wait for: nothing, a part of needs, or a child by its number.
fn waiting_of(alloc: Global, forest: &Forest, words: &str) -> Result<Option<Waiting>, AllocError> {
    match words.split_once(' ').unwrap_or((words, "")) {
        ("nothing", _) => Ok(Some(Waiting::Nothing)),
        ("part", word) => Ok(Some(Waiting::Part(needs_of(alloc, forest, word)?))),
        ("child", word) => match word.parse::<u64>() {
            Ok(child) => Ok(Some(Waiting::Child(OpNumber(child)))),
            Err(_) => Ok(None),
        },
        _ => Ok(None),
    }
}

fn park<F: Finder + Drop, L: Ledger>(
    alloc: Global,
    play: &mut Play<F>,
    op: OpNumber,
    words: &str,
    steps: &mut Steps<L>,
) -> Result<bool, AllocError> {
    match waiting_of(alloc, play.forest(), words)? {
        Some(on) => play.park(op, on, steps),
        None => Ok(false),
    }
}

fn told(alloc: Global, called: bool) -> Result<String, AllocError> {
    String::from_str(alloc, if called { "done" } else { "no call" })
}

/// Makes the call that a line tells of an operation, where it may be made.
fn answer<F: Finder + Drop, L: Ledger>(
    alloc: Global,
    play: &mut Play<F>,
    call: &str,
    op: OpNumber,
    words: &str,
    steps: &mut Steps<L>,
) -> Result<String, AllocError> {
    match (call, words) {
        ("issue", words) => issue(alloc, play, op, words, steps),
        ("begin", _) => told(alloc, play.begin(op)),
        ("park", words) => {
            let parked = park(alloc, play, op, words, steps)?;
            told(alloc, parked)
        }
        ("end", "done") => told(alloc, play.end(op, How::Done)),
        ("end", "failed") => told(alloc, play.end(op, How::Failed)),
        _ => String::from_str(alloc, "no call"),
    }
}

/// What the call of a line answers, and the state of the graph behind it.
pub fn told_of<F: Finder + Drop, L: Ledger>(
    alloc: Global,
    play: &mut Play<F>,
    line: &str,
    steps: &mut Steps<L>,
) -> Result<String, AllocError> {
    let (call, rest) = line.split_once(' ').unwrap_or((line, ""));
    let (number, words) = rest.split_once(' ').unwrap_or((rest, ""));
    let op = OpNumber(number.parse::<u64>().unwrap_or(u64::MAX));
    let answer = answer(alloc, play, call, op, words, steps)?;
    let state = state(alloc, play.graph())?;
    format!(in alloc; "{answer};{state}")
}
