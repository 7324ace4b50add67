//! Lists of words, each with what it says. What is expected is taken from the table of commands.

use command_words::{Command, Run, WordsFault, command};
use std::alloc::{AllocError, Global};

/// Words, with `|` between them, and the command that they say.
static ROWS: [(&str, &str); 45] = [
    ("run|f.rg", "run f.rg"),
    ("check|f.rg", "check f.rg"),
    ("sample|8", "sample 8"),
    ("", "refused"),
    ("run", "refused"),
    ("check", "refused"),
    ("sample", "refused"),
    ("walk|f.rg", "refused"),
    ("--|run|f.rg", "refused"),
    ("--dump|run|f.rg", "refused"),
    ("help", "refused"),
    ("run|--help", "refused"),
    ("run|-h", "refused"),
    ("--version", "refused"),
    ("check|f.rg|g.rg", "refused"),
    ("sample|8|9", "refused"),
    ("run|--workers|3|f.rg", "run f.rg workers 3"),
    ("run|--workers=3|f.rg", "run f.rg workers 3"),
    ("run|f.rg|5|--workers|0|6", "run f.rg [5] [6] workers 0"),
    ("run|f.rg|--turns=10|--|-6", "run f.rg [-6] turns 10"),
    ("run|--dump|f.rg|--trace", "run f.rg dump trace"),
    (
        "run|--trace|--workers=64|--turns|1099511627776|--dump|f",
        "run f workers 64 turns 1099511627776 dump trace",
    ),
    ("sample|--workers|2|64", "sample 64 workers 2"),
    ("sample|1|--workers=64", "sample 1 workers 64"),
    ("run|--dump|--dump|f", "refused"),
    ("run|--workers|3|f|--workers=3", "refused"),
    ("run|--dump=x|f", "refused"),
    ("run|--dump=|f", "refused"),
    ("run|f|--workers", "refused"),
    ("run|--workers|--dump|f", "refused"),
    ("run|--workers|--|f", "refused"),
    ("run|--workers|-3|f", "refused"),
    ("run|--workers=|f", "refused"),
    ("run|--workers=+3|f", "refused"),
    ("run|--workers=65|f", "refused"),
    ("run|--turns=1099511627777|f", "refused"),
    ("sample|0", "refused"),
    ("sample|65", "refused"),
    ("sample|00000000000000000007", "sample 7"),
    ("sample|000000000000000000007", "refused"),
    ("check|--workers=3|f", "refused"),
    ("run|-x|f", "refused"),
    ("run|--|f|--dump|--|-h", "run f [--dump] [--] [-h]"),
    ("run|-|", "run - []"),
    ("check||", "refused"),
];

fn push_all(text: &mut String, parts: &[&str]) -> Result<(), AllocError> {
    for part in parts {
        text.push_str(part)?;
    }
    Ok(())
}

/// A number after its name, where it is named.
fn push_named(
    alloc: Global,
    text: &mut String,
    name: &str,
    number: Option<u64>,
) -> Result<(), AllocError> {
    let Some(number) = number else {
        return Ok(());
    };
    let digits = number.to_string(alloc)?;
    push_all(text, &[name, digits.as_str()])
}

/// The numbers of a run.
fn push_numbers(text: &mut String, run: &Run<'_>) -> Result<(), AllocError> {
    for number in &run.numbers {
        push_all(text, &[" [", number, "]"])?;
    }
    Ok(())
}

/// The options of a run.
fn push_options(alloc: Global, text: &mut String, run: &Run<'_>) -> Result<(), AllocError> {
    push_named(alloc, text, " workers ", run.workers)?;
    push_named(alloc, text, " turns ", run.turns)?;
    let dump = if run.dump { " dump" } else { "" };
    let trace = if run.trace { " trace" } else { "" };
    push_all(text, &[dump, trace])
}

/// A command: its name, what is run or checked, and how.
fn push_command(alloc: Global, text: &mut String, said: &Command<'_>) -> Result<(), AllocError> {
    match said {
        Command::Run { file, run } => {
            push_all(text, &["run ", file])?;
            push_numbers(text, run)?;
            push_options(alloc, text, run)
        }
        Command::Check { file } => push_all(text, &["check ", file]),
        Command::Sample { colours, run } => {
            push_named(alloc, text, "sample ", Some(u64::from(*colours)))?;
            push_numbers(text, run)?;
            push_options(alloc, text, run)
        }
    }
}

/// What words say.
fn push_said(alloc: Global, text: &mut String, words: &[String]) -> Result<(), AllocError> {
    match command(alloc, words) {
        Ok(said) => push_command(alloc, text, &said),
        Err(WordsFault::Refused) => text.push_str("refused"),
        Err(WordsFault::Memory(error)) => Err(error),
    }
}

/// Whether words say this.
fn say(
    alloc: Global,
    words: Result<Vec<String>, AllocError>,
    wanted: &str,
) -> Result<bool, AllocError> {
    let words = words?;
    let mut text = String::new(alloc);
    push_said(alloc, &mut text, words.as_slice())?;
    Ok(text.as_str() == wanted)
}

/// The program's name alone.
fn name_alone(alloc: Global) -> Result<Vec<String>, AllocError> {
    let name = String::from_str(alloc, "regent")?;
    Ok(vec![in alloc; name]?)
}

/// The program's name and the words of a row.
fn words_of(alloc: Global, row: &str) -> Result<Vec<String>, AllocError> {
    let mut words = name_alone(alloc)?;
    for word in row.split('|') {
        words.push(String::from_str(alloc, word)?)?;
    }
    Ok(words)
}

#[test]
fn each_row_says_its_command(rt: HostRuntime) -> Result<(), AllocError> {
    let alloc = rt.alloc();
    for (row, wanted) in &ROWS {
        assert!(rt; say(alloc, words_of(alloc, row), wanted)?, "at {row}");
    }
    Ok(())
}

/// Without a command, and without even the program's name.
#[test]
fn no_words_are_refused(rt: HostRuntime) -> Result<(), AllocError> {
    let alloc = rt.alloc();
    let named = say(alloc, name_alone(alloc), "refused")?;
    let none = say(alloc, Ok(Vec::new(alloc)), "refused")?;
    assert_eq!(rt; [named, none], [true; 2]);
    Ok(())
}
