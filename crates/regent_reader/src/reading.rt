//! From bytes to a program.

ghost use Rattle.std.specs.Prelude.{◌≡◌, ◌≤◌, IfErr, IfOk, None, length};
ghost use Rattle.regent_tree.specs.Limits.{WithinLimits, first_excess, parts_of_program};
ghost use Rattle.regent_tree.specs.PlainProgram.{tree_of};
ghost use Rattle.regent_reader.specs.Texts.{Answers, AreWithin, Has, HasSmallCounts, IsLexed, Nests, Outcome, Parses, Reads, RefusesTokens, counted_program, last_line, line_at};

use crate::fault::ReadFault;
use crate::items::program;
use read_limits::first_excess;
use read_terms::Stop;
use regent_grammar::{Terminal, first_too_deep, terminals};
use regent_lex::{LexFault, tokens};
use regent_tree::Program;
use std::alloc::Global;

/// The text's terminals.
fn lexed(alloc: Global, text: &[u8]) -> Result<Vec<Terminal>, ReadFault>
    requires { length text.now ≤ 1048576 }
    ensures ok { IfOk result (λ ls. IsLexed text.now ls.items) }
    ensures within { IfOk result (λ ls. AreWithin ls.items) }
    ensures err { IfErr result (RefusesTokens text.now) }
{
    match tokens(alloc, text) {
        Ok(tokens) => Ok(terminals(alloc, text, tokens.as_slice())?),
        Err(LexFault::At { kind, line }) => Err(ReadFault::Lex { kind, line }),
        Err(LexFault::Memory(error)) => Err(ReadFault::Memory(error)),
    }
}

/// The line on which a text ends.
fn last_line(text: &[u8]) -> u32
    requires { length text.now ≤ 1048576 }
    ensures { result ≡ last_line text.now }
{
    let mut line: u32 = 1;
    for byte in text {
        if *byte == b'\n' {
            line += 1;
        }
    }
    line
}

/// The line of the first of these terminals, or of the text's end if there are none.
fn line_at(text: &[u8], terminals: &[Terminal]) -> u32
    requires { length text.now ≤ 1048576 }
    ensures { result ≡ line_at text.now terminals.now }
{
    match terminals {
        [] => last_line(text),
        [next, ..] => next.line,
    }
}

/// A program, unless it has too many of something.
fn counted(program: Program) -> Result<Program, ReadFault>
    requires small { HasSmallCounts (tree_of program) }
    ensures answers { Answers (λ outcome. outcome ≡ counted_program (tree_of program)) result }
    ensures same { IfOk result (λ p. (tree_of p ≡ tree_of program)
        × (first_excess (parts_of_program (tree_of program)) ≡ None)) }
{
    match first_excess(&program) {
        None => Ok(program),
        Some(excess) => Err(ReadFault::TooMany {
            what: excess.what,
            count: excess.count as u32,
        }),
    }
}

/// The outcome of terminals that aren't nested too deeply.
fn parsed(alloc: Global, text: &[u8], terminals: &[Terminal]) -> Result<Program, ReadFault>
    requires short { length text.now ≤ 1048576 }
    requires within { AreWithin terminals.now }
    ensures answers { Answers (Parses text.now terminals.now) result }
    ensures within { IfOk result (λ p. WithinLimits (tree_of p)) }
{
    match program(alloc, terminals) {
        Ok(program) => counted(program),
        Err(Stop::At(at)) => Err(ReadFault::NoProgram {
            line: line_at(text, at),
        }),
        Err(Stop::Memory(error)) => Err(ReadFault::Memory(error)),
    }
}

/// The outcome of terminals.
fn nested(alloc: Global, text: &[u8], terminals: &[Terminal]) -> Result<Program, ReadFault>
    requires short { length text.now ≤ 1048576 }
    requires within { AreWithin terminals.now }
    ensures answers { Answers (Nests text.now terminals.now) result }
    ensures within { IfOk result (λ p. WithinLimits (tree_of p)) }
{
    match first_too_deep(terminals) {
        Some(line) => Err(ReadFault::TooDeep { line }),
        None => parsed(alloc, text, terminals),
    }
}

/// The program that a text spells, or the first reason why it isn't one: too many bytes, no tokens,
/// nesting that is too deep anywhere, a token that no production takes, or too many of something.
pub fn read(alloc: Global, text: &[u8]) -> Result<Program, ReadFault>
    // The result is the outcome of the text.
    ensures reads { Answers (Reads text.now) result }
    // A program that is read is within the limits of a tree.
    ensures within { IfOk result (λ p. WithinLimits (tree_of p)) }
    // A text has at most one outcome, and that is the result unless memory runs out.
    ensures only { (outcome : Outcome) → Reads text.now outcome → Has outcome result }
{
    if text.len() > 1_048_576 {
        return Err(ReadFault::TooLong);
    }
    let terminals = lexed(alloc, text)?;
    nested(alloc, text, terminals.as_slice())
}
