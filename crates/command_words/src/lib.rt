//! The words of the command line: `run [--workers N] [--turns N] [--dump] [--trace] FILE [NUMBER
//! ..]`, `check FILE` and `sample [--workers N] N`.
//!
//! `command` reads them with `clap`, as one simple command with a level of subcommands, and reads
//! the numbers of options from their texts. The meaning of words is defined in `specs/`: the
//! commands and the settings that each knows in `Settings`, the words one after the other in
//! `Uses`, the numbers, the limits and the commands in `Commands`. `proofs/` shows for all lists of
//! words, from clap's contract, that its result has this meaning.
#![tactic(auto)]

mod commands;
mod fault;
mod number;
mod parser;
mod read;
mod said;

pub use commands::{
    Command, MOST_COLOURS, MOST_TURNS, MOST_WORKERS, Run, turns_or_default, workers_or_default,
};
pub use fault::WordsFault;
pub use read::command;
