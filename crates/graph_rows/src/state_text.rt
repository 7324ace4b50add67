//! Graphs as text.

use dependence_graph::Graph;
use region_finder::Finder;
use region_tree::OpNumber;
use std::alloc::{AllocError, Global};

/// How many operations are told of.
const TOLD: u64 = 16;

/// The stages of all operations in order of issue, each with a star where it is ready.
fn stages<F: Finder + Drop>(alloc: Global, graph: &Graph<F>) -> Result<String, AllocError> {
    let mut text = String::new(alloc);
    for place in 0..TOLD {
        let op = OpNumber(place);
        let star = if graph.ready(op) { "*" } else { "" };
        if let Some(stage) = graph.stage(op) {
            let one = format!(in alloc; " {stage:?}{star}")?;
            text.push_str(one.as_str())?;
        }
    }
    Ok(text)
}

/// The least operation that is ready.
fn first<F: Finder + Drop>(alloc: Global, graph: &Graph<F>) -> Result<String, AllocError> {
    match graph.first_ready() {
        Some(op) => format!(in alloc; "first {}", op.0),
        None => String::from_str(alloc, "none ready"),
    }
}

/// Operations by their numbers.
pub fn numbers(alloc: Global, ops: &[OpNumber]) -> Result<String, AllocError> {
    let mut text = String::new(alloc);
    for op in ops {
        let one = format!(in alloc; " {}", op.0)?;
        text.push_str(one.as_str())?;
    }
    Ok(text)
}

/// The stages, the least operation that is ready, and those in progress.
pub fn state<F: Finder + Drop>(alloc: Global, graph: &Graph<F>) -> Result<String, AllocError> {
    let stages = stages(alloc, graph)?;
    let first = first(alloc, graph)?;
    let progress = numbers(alloc, graph.in_progress()?.as_slice())?;
    format!(in alloc; "{stages}; {first}; in progress{progress}")
}
