//! From words and a source to the plan of a run, or to a verdict without one.

ghost use Rattle.std.specs.Prelude.{◌≡◌, [], Some};
ghost use Rattle.check_rules.specs.Breaches.{breaches};
ghost use Rattle.expression_laws.specs.WrittenStatements.{AreWrittenTasks};
ghost use Rattle.regent_tree.specs.Limits.{WithinLimits};
ghost use Rattle.regent_tree.specs.PlainProgram.{tree_of};
ghost use Rattle.regent_reader.specs.declared.fault.ReadFault.TheVariants.{Lex};
ghost use Rattle.sample_maker.specs.Texts.{sample_text};
ghost use Rattle.command_words.specs.Given.{texts};
ghost use Rattle.regent_run.specs.Calls.{source_change};
ghost use Rattle.regent_run.specs.Programs.{limit_counted, limit_in_token};
ghost use Rattle.regent_run.specs.Reading.{UsesSource};
ghost use Rattle.regent_run.specs.Verdicts.{IsNoProgram, IsRefused, Judges, JudgesAccepted, JudgesProgram, TellsFault, Says};
ghost use Rattle.regent_run.specs.Words.{AsksNoFile, IsNoFile, asked_of_file, deed_given, origin_given, request, request_given};

use crate::limit::Limit;
use crate::plan::{Plan, judge_run};
use crate::requests::{Deed, Origin, Request, asked_by};
use crate::text::read_text;
use crate::verdict::Verdict;
use check_rules::Accepted;
use command_words::{WordsFault, command};
use regent_lex::LexKind;
use regent_reader::{ReadFault, read};
use regent_tree::{Counted, Program};
use run_io::{NoRest, Source};
use sample_maker::sample;
use std::alloc::Global;
use type_check::{CheckFault, check};

/// The verdict that the text isn't a program, on this line.
fn no_program(alloc: Global, line: u32) -> Verdict
    ensures { IsNoProgram line result }
{
    match format!(in alloc; "error: syntax at line {line}\n") {
        Ok(message) => Verdict::NoProgram { message },
        Err(_) => Verdict::NoMemory,
    }
}

/// The limit that a token exceeds, if that is its fault.
fn limit_in_token(kind: LexKind) -> Option<Limit>
    ensures { result ≡ limit_in_token kind }
{
    match kind {
        LexKind::BadByte | LexKind::Unclosed => None,
        LexKind::NumberTooLarge => Some(Limit::Number),
        LexKind::NameTooLong => Some(Limit::Name),
    }
}

/// The verdict on a text that has no tokens.
fn token_fault(alloc: Global, kind: LexKind, line: u32) -> Verdict
    ensures { TellsFault (Lex kind line) result }
{
    match limit_in_token(kind) {
        Some(passed) => Verdict::PastLimit(passed),
        None => no_program(alloc, line),
    }
}

fn limit_counted(what: Counted) -> Limit
    ensures { result ≡ limit_counted what }
{
    match what {
        Counted::Tasks => Limit::Tasks,
        Counted::Spaces => Limit::Spaces,
        Counted::Fields => Limit::Fields,
        Counted::Parameters => Limit::Parameters,
        Counted::Regions => Limit::Regions,
    }
}

/// The verdict on a text that isn't a program within the limits.
fn read_fault(alloc: Global, fault: ReadFault) -> Verdict
    ensures { TellsFault fault result }
{
    match fault {
        ReadFault::TooLong => Verdict::PastLimit(Limit::Text),
        ReadFault::Lex { kind, line } => token_fault(alloc, kind, line),
        ReadFault::TooDeep { .. } => Verdict::PastLimit(Limit::Nesting),
        ReadFault::NoProgram { line } => no_program(alloc, line),
        ReadFault::TooMany { what, .. } => Verdict::PastLimit(limit_counted(what)),
        ReadFault::Memory(_) => Verdict::NoMemory,
    }
}

/// The verdict that the program violates the rule on this line.
fn broken_rule(alloc: Global, rule: u8, line: u32) -> Verdict
    ensures { IsRefused rule line result }
{
    match format!(in alloc; "error: rule {rule} at line {line}\n") {
        Ok(message) => Verdict::Refused { message },
        Err(_) => Verdict::NoMemory,
    }
}

/// The plan or verdict for an accepted program.
fn judge_accepted(alloc: Global, program: &Accepted, deed: &Deed<'_, '_>) -> Result<Plan, Verdict>
    requires within { WithinLimits (tree_of program.now) }
    requires sound { breaches (tree_of program.now) ≡ [] }
    requires written { AreWrittenTasks (tree_of program.now) }
    ensures { JudgesAccepted (tree_of program.now) (deed_given deed.now) result }
{
    match deed {
        Deed::Run(asked) => judge_run(alloc, program, asked),
        Deed::Check => Err(Verdict::Accepted),
    }
}

/// The plan or verdict for a program.
fn judge_program(alloc: Global, program: Program, deed: &Deed<'_, '_>) -> Result<Plan, Verdict>
    requires within { WithinLimits (tree_of program) }
    requires written { AreWrittenTasks (tree_of program) }
    ensures { JudgesProgram (tree_of program) (deed_given deed.now) result }
{
    match check(alloc, program) {
        Ok(accepted) => judge_accepted(alloc, &accepted, deed),
        Err(CheckFault::Refused { rule, line, .. }) => Err(broken_rule(alloc, rule, line)),
        Err(CheckFault::Memory(_)) => Err(Verdict::NoMemory),
    }
}

/// The plan or verdict for a text.
fn judge_text(alloc: Global, text: &[u8], deed: &Deed<'_, '_>) -> Result<Plan, Verdict>
    ensures { Judges text.now (deed_given deed.now) result }
{
    match read(alloc, text) {
        Ok(program) => judge_program(alloc, program, deed),
        Err(fault) => Err(read_fault(alloc, fault)),
    }
}

/// The plan or verdict for the text of a file.
fn judge_file<S: Source>(
    alloc: Global,
    file: &str,
    deed: &Deed<'_, '_>,
    source: &mut S,
) -> Result<Plan, Verdict>
    ensures said { Says (Some (asked_of_file file.now (deed_given deed.now))) (S.later source.old)
        (S.faults source.old) (S.faults source.new) result }
    ensures uses { UsesSource (Some (asked_of_file file.now (deed_given deed.now)))
        (source_change S.Source source.old source.new) result }
{
    let Ok(name) = String::from_str(alloc, file) else {
        return Err(Verdict::NoMemory);
    };
    match read_text(alloc, source, name) {
        Ok(text) => judge_text(alloc, text.as_slice(), deed),
        Err(NoRest::Failed) => Err(Verdict::Unread),
        Err(NoRest::Memory) => Err(Verdict::NoMemory),
    }
}

/// The plan or verdict for the sample with a number of colours.
fn judge_sample(alloc: Global, colours: u32, deed: &Deed<'_, '_>) -> Result<Plan, Verdict>
    ensures { Judges (sample_text colours) (deed_given deed.now) result }
{
    match sample(alloc, colours) {
        Ok(text) => judge_text(alloc, text.as_bytes(), deed),
        Err(_) => Err(Verdict::NoMemory),
    }
}

/// The plan or verdict for a request.
fn judge_request<S: Source>(
    alloc: Global,
    asked: &Request<'_, '_>,
    source: &mut S,
) -> Result<Plan, Verdict>
    ensures untouched { IsNoFile (origin_given asked.now.origin) → source.new ≡ source.old }
    ensures said { Says (Some (request_given asked.now)) (S.later source.old)
        (S.faults source.old) (S.faults source.new) result }
    ensures uses { UsesSource (Some (request_given asked.now)) (source_change S.Source source.old source.new) result }
{
    match asked.origin {
        Origin::File(name) => judge_file(alloc, name, &asked.deed, source),
        Origin::Sample(colours) => judge_sample(alloc, colours, &asked.deed),
    }
}

/// The plan or verdict for the words and the source.
pub fn judge<S: Source>(alloc: Global, words: &[String], source: &mut S) -> Result<Plan, Verdict>
    ensures untouched { AsksNoFile (request (texts words.now)) → source.new ≡ source.old }
    ensures said { Says (request (texts words.now)) (S.later source.old) (S.faults source.old) (S.faults source.new) result }
    ensures uses { UsesSource (request (texts words.now)) (source_change S.Source source.old source.new) result }
{
    let said = match command(alloc, words) {
        Ok(said) => said,
        Err(WordsFault::Refused) => return Err(Verdict::Usage),
        Err(WordsFault::Memory(_)) => return Err(Verdict::NoMemory),
    };
    judge_request(alloc, &asked_by(&said), source)
}
