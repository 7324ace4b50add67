//! From words to a command.

ghost use Rattle.std.specs.Prelude.{◌≡◌, ◌≢◌, IfErr, IfOk, Some, None, option_and_then, option_map};
ghost use Rattle.clap.specs.Words.{kind_of};
ghost use Rattle.clap.specs.declared.error.kind.ErrorKind.TheVariants.{OutOfMemory};
ghost use Rattle.command_words.specs.Commands.{command, command_of, run_of};
ghost use Rattle.command_words.specs.Given.{command_given, said_given, texts};
ghost use Rattle.command_words.specs.Settings.{check, command_named, run, sample};
ghost use Rattle.command_words.specs.declared.fault.WordsFault.TheVariants.{Refused};

use crate::commands::{Command, MOST_COLOURS, MOST_TURNS, MOST_WORKERS, Run};
use crate::fault::WordsFault;
use crate::number::{number, number_named};
use crate::parser;
use crate::said::{Said, said_in};
use clap::Error;
use clap::error::ErrorKind;
use std::alloc::{AllocError, Global};

/// The `run` command: a file and numbers.
fn to_run<'a>(
    alloc: Global,
    said: Said<'_, 'a>,
    workers: Option<u64>,
    turns: Option<u64>,
) -> Result<Option<Command<'a>>, AllocError>
    ensures { IfOk result (λ made. option_map command_given made
        ≡ run_of (said_given said.entry) (said_given said.entry).words workers turns) }
{
    let Some([file, rest @ ..]) = said.words else {
        return Ok(None);
    };
    let mut numbers = Vec::new(alloc);
    numbers.extend_from_slice(rest)?;
    Ok(Some(Command::Run {
        file,
        run: Run {
            numbers,
            workers,
            turns,
            dump: said.dump,
            trace: said.trace,
        },
    }))
}

/// The `run` command, with the numbers that the options give.
fn run_of<'a>(alloc: Global, said: Said<'_, 'a>) -> Result<Option<Command<'a>>, AllocError>
    ensures { IfOk result (λ made. option_map command_given made ≡ command_of run (said_given said.entry)) }
{
    let Some(workers) = number_named(MOST_WORKERS, said.workers) else {
        return Ok(None);
    };
    let Some(turns) = number_named(MOST_TURNS, said.turns) else {
        return Ok(None);
    };
    to_run(alloc, said, workers, turns)
}

/// The `check` command: one file and no other word.
fn check_of<'a>(said: Said<'_, 'a>) -> Option<Command<'a>>
    ensures { option_map command_given result ≡ command_of check (said_given said.entry) }
{
    match said.words {
        Some([file]) => Some(Command::Check { file }),
        _ => None,
    }
}

/// The `sample` command: one number and no other word.
fn sample_of<'a>(alloc: Global, said: Said<'_, 'a>) -> Option<Command<'a>>
    ensures { option_map command_given result ≡ command_of sample (said_given said.entry) }
{
    let workers = number_named(MOST_WORKERS, said.workers)?;
    match said.words {
        Some([colours]) => Some(Command::Sample {
            colours: number(1, MOST_COLOURS, colours)? as u32,
            run: Run {
                numbers: Vec::new(alloc),
                workers,
                turns: None,
                dump: false,
                trace: false,
            },
        }),
        _ => None,
    }
}

/// The command of this name, given what clap found.
fn command_of<'a>(
    alloc: Global,
    name: &str,
    said: Said<'_, 'a>,
) -> Result<Option<Command<'a>>, AllocError>
    ensures { IfOk result (λ made. option_map command_given made
        ≡ option_and_then (λ k. command_of k (said_given said.entry)) (command_named name.now)) }
{
    if name == "run" {
        run_of(alloc, said)
    } else if name == "check" {
        Ok(check_of(said))
    } else if name == "sample" {
        Ok(sample_of(alloc, said))
    } else {
        Ok(None)
    }
}

/// Why clap failed: the words are refused, or it is out of memory.
fn fault_of(error: &Error) -> WordsFault
    ensures { result ≡ Refused → kind_of error.now ≢ OutOfMemory }
{
    match error.kind() {
        ErrorKind::OutOfMemory => WordsFault::Memory(AllocError),
        _ => WordsFault::Refused,
    }
}

/// The command in the words. The first of them is the program's name.
pub fn command<'a>(alloc: Global, words: &'a [String]) -> Result<Command<'a>, WordsFault>
    ensures taken { IfOk result (λ said. command (texts words.entry.now) ≡ Some (command_given said)) }
    ensures refused { IfErr result (λ fault. fault ≡ Refused → command (texts words.entry.now) ≡ None) }
{
    let parser = parser::regent(alloc)?;
    let matches = match parser.try_get_matches_from(words) {
        Ok(matches) => matches,
        Err(error) => return Err(fault_of(&error)),
    };
    let Some((name, found)) = matches.subcommand() else {
        return Err(WordsFault::Refused);
    };
    match command_of(alloc, name, said_in(found))? {
        Some(made) => Ok(made),
        None => Err(WordsFault::Refused),
    }
}
