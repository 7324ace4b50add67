//! The commands in the words.

ghost use Rattle.std.specs.Prelude.{◌≡◌};
ghost use Rattle.command_words.specs.Commands.{turns_or_default, workers_or_default};

/// The greatest number of workers that may be given.
pub const MOST_WORKERS: u64 = 64;

/// The greatest number of turns that may be given.
pub const MOST_TURNS: u64 = 1 << 40;

/// The greatest number of colours of a sample.
pub const MOST_COLOURS: u64 = 64;

/// The number of workers: the given one, or the default.
pub fn workers_or_default(named: Option<u64>) -> u64
    ensures { result ≡ workers_or_default named }
{
    named.unwrap_or(4)
}

/// The number of turns of a run: the given one, or the default.
pub fn turns_or_default(named: Option<u64>) -> u64
    ensures { result ≡ turns_or_default named }
{
    named.unwrap_or(1_000_000)
}

/// The options of a run. The words of its numbers aren't read yet: which numbers are allowed
/// depends on the program.
#[derive(Debug, Drop)]
pub struct Run<'a> {
    pub numbers: Vec<&'a str>,
    /// The number of workers, if it is given.
    pub workers: Option<u64>,
    /// The number of turns, if it is given.
    pub turns: Option<u64>,
    pub dump: bool,
    pub trace: bool,
}

/// A command.
#[derive(Debug, Drop)]
pub enum Command<'a> {
    Run { file: &'a str, run: Run<'a> },
    Check { file: &'a str },
    Sample { colours: u32, run: Run<'a> },
}
