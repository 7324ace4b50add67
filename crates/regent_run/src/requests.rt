//! The requests in the words of the command line.

ghost use Rattle.std.specs.Prelude.{◌≡◌};
ghost use Rattle.command_words.specs.Given.{command_given};
ghost use Rattle.regent_run.specs.Words.{asked_by, request_given};

use command_words::{Command, Run};

/// The origin of a text.
#[derive(Clone, Copy)]
pub enum Origin<'a> {
    /// It is that of a file of this name.
    File(&'a str),
    /// It is the sample with a number of colours.
    Sample(u32),
}

/// What to do with a text.
#[derive(Clone, Copy)]
pub enum Deed<'d, 'a> {
    Run(&'d Run<'a>),
    Check,
}

/// A text, and what to do with it.
#[derive(Clone, Copy)]
pub struct Request<'d, 'a> {
    pub origin: Origin<'a>,
    pub deed: Deed<'d, 'a>,
}

/// The request of a command.
pub fn asked_by<'d, 'a>(said: &'d Command<'a>) -> Request<'d, 'a>
    ensures { request_given result ≡ asked_by (command_given said.entry.now) }
{
    match said {
        Command::Run { file, run } => Request {
            origin: Origin::File(*file),
            deed: Deed::Run(run),
        },
        Command::Check { file } => Request {
            origin: Origin::File(*file),
            deed: Deed::Check,
        },
        Command::Sample { colours, run } => Request {
            origin: Origin::Sample(*colours),
            deed: Deed::Run(run),
        },
    }
}
