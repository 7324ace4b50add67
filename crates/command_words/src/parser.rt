//! The command definition for clap.

ghost use Rattle.std.specs.Prelude.{◌≡◌, IfOk, Some, false};
ghost use Rattle.clap.specs.Words.{app_of, new_rule, rule_of};
ghost use Rattle.command_words.specs.Parser.{check_app, named_app, regent, run_app, sample_app, word_rule};

use clap::{Arg, ArgAction, Command};
use std::alloc::{AllocError, Global};

/// An option or a flag, by its long name.
fn setting<'a>(alloc: Global, name: &'a str, action: ArgAction) -> Arg<'a>
    ensures rule { rule_of result ≡ record (new_rule name.entry.now) { long = Some name.entry.now; action = Some action } }
    ensures local { result.global ≡ false }
{
    Arg::new(alloc, name).long(name).action(action)
}

/// The positional words.
fn words<'a>(alloc: Global) -> Arg<'a>
    ensures rule { rule_of result ≡ word_rule }
    ensures local { result.global ≡ false }
{
    Arg::new(alloc, "words").action(ArgAction::Append)
}

/// A command that doesn't know `--help`.
fn named<'a>(alloc: Global, name: &'a str) -> Command<'a>
    ensures { app_of result ≡ named_app name.entry.now }
{
    Command::new(alloc, name)
        .disable_help_flag(true)
        .disable_help_subcommand(true)
        .disable_version_flag(true)
}

fn run<'a>(alloc: Global) -> Result<Command<'a>, AllocError>
    ensures { IfOk result (λ command. app_of command ≡ run_app) }
{
    named(alloc, "run")
        .arg(setting(alloc, "workers", ArgAction::Set))?
        .arg(setting(alloc, "turns", ArgAction::Set))?
        .arg(setting(alloc, "dump", ArgAction::SetTrue))?
        .arg(setting(alloc, "trace", ArgAction::SetTrue))?
        .arg(words(alloc))
}

fn check<'a>(alloc: Global) -> Result<Command<'a>, AllocError>
    ensures { IfOk result (λ command. app_of command ≡ check_app) }
{
    named(alloc, "check").arg(words(alloc))
}

fn sample<'a>(alloc: Global) -> Result<Command<'a>, AllocError>
    ensures { IfOk result (λ command. app_of command ≡ sample_app) }
{
    named(alloc, "sample")
        .arg(setting(alloc, "workers", ArgAction::Set))?
        .arg(words(alloc))
}

/// The command with its subcommands.
pub fn regent<'a>(alloc: Global) -> Result<Command<'a>, AllocError>
    ensures { IfOk result (λ command. app_of command ≡ regent) }
{
    let run = run(alloc)?;
    let check = check(alloc)?;
    let sample = sample(alloc)?;
    named(alloc, "regent")
        .subcommand_required(true)
        .subcommand(run)?
        .subcommand(check)?
        .subcommand(sample)
}
