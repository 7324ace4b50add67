//! The results of clap on the words after a command.

ghost use Rattle.std.specs.Prelude.{◌≡◌};
ghost use Rattle.clap.specs.Words.{first_of, found_of, rows_of};
ghost use Rattle.command_words.specs.Given.{said_given};
ghost use Rattle.command_words.specs.Matched.{is_set, said_in};

use clap::ArgMatches;

/// The positional words, the values of the options and whether the flags are given.
#[derive(Clone, Copy, Debug)]
pub struct Said<'m, 'a> {
    pub words: Option<&'m [&'a str]>,
    pub workers: Option<&'a str>,
    pub turns: Option<&'a str>,
    pub dump: bool,
    pub trace: bool,
}

/// Whether a flag is given.
fn is_set(found: &ArgMatches<'_>, flag: &str) -> bool
    ensures { result ≡ is_set (first_of flag.now (rows_of (found_of found.now))) }
{
    match found.get_str(flag) {
        Some(text) => text == "true",
        None => false,
    }
}

pub fn said_in<'m, 'a>(found: &'m ArgMatches<'a>) -> Said<'m, 'a>
    ensures { said_given result ≡ said_in (rows_of (found_of found.entry.now)) }
{
    Said {
        words: found.get_raw("words"),
        workers: found.get_str("workers"),
        turns: found.get_str("turns"),
        dump: is_set(found, "dump"),
        trace: is_set(found, "trace"),
    }
}
