//! A journal, from its text.

ghost use Rattle.std.specs.Prelude.{All, ◌≡◌, ◌≢◌, ◌++◌, IfNone, IfOk, IfSome, List, ℕ};
ghost use Rattle.run_journal.specs.Journals.{IsEntry, IsFirstBad, OnBad, TextsHaveNoBadLine, TextsTell, line_of, text_of, word_of};
ghost use Rattle.run_journal.specs.declared.entry.Entry.{Entry as AnEntry};
ghost use Rattle.run_journal.specs.declared.entry.StepKind.{StepKind as AKind};

use crate::entry::{Entry, StepKind};
use crate::fault::JournalFault;
use crate::numbers::number_at;
use region_tree::OpNumber;
use std::alloc::Global;

/// What stands behind a mark, if a text begins with it.
fn behind<'a>(text: &'a [u8], mark: &[u8]) -> Option<&'a [u8]>
    ensures some { IfSome result (λ r. text.now ≡ mark.now ++ r.now) }
    ensures none { IfNone result ((rest : List ℕ) → text.now ≢ mark.now ++ rest) }
{
    text.strip_prefix(mark)
}

/// The kind that a line begins with, and what stands behind its word.
fn kind_at(text: &[u8]) -> Option<(StepKind, &[u8])>
    ensures some { IfSome result (λ r. text.now ≡ word_of r.0 ++ r.1.now) }
    ensures none { IfNone result ((kind : AKind) (rest : List ℕ) → text.now ≢ word_of kind ++ rest) }
{
    if let Some(rest) = behind(text, b"claim ") {
        return Some((StepKind::Claim, rest));
    }
    if let Some(rest) = behind(text, b"copy ") {
        return Some((StepKind::Copy, rest));
    }
    if let Some(rest) = behind(text, b"give ") {
        return Some((StepKind::Give, rest));
    }
    if let Some(rest) = behind(text, b"back ") {
        return Some((StepKind::Back, rest));
    }
    None
}

/// The entry whose line a text begins with, and what stands behind the line.
fn entry_at(text: &[u8]) -> Option<(Entry, &[u8])>
    ensures some { IfSome result (λ r. text.now ≡ line_of r.0 ++ r.1.now) }
    ensures entry { IfSome result (λ r. IsEntry r.0) }
    ensures none { IfNone result ((e : AnEntry) (rest : List ℕ) → IsEntry e → text.now ≢ line_of e ++ rest) }
{
    let (kind, rest) = kind_at(text)?;
    let (op, rest) = number_at(rest)?;
    let (seat, rest) = number_at(behind(rest, b" by ")?)?;
    let seat = u16::try_from(seat).ok()?;
    let rest = behind(rest, b"\n")?;
    let op = OpNumber(op);
    Some((Entry { kind, op, seat }, rest))
}

/// The entries of a journal, from its text.
pub fn journal_read(alloc: Global, text: &[u8]) -> Result<Vec<Entry>, JournalFault>
    ensures ok { IfOk result (λ journal. text.now ≡ text_of journal.items) }
    ensures entries { IfOk result (λ journal. All IsEntry journal.items) }
    ensures bad { OnBad result (IsFirstBad text.now) }
{
    let mut journal = Vec::new(alloc);
    let mut rest = text;
    while !rest.is_empty() {
        let Some((entry, behind)) = entry_at(rest) else {
            let line = journal.len() as u64 + 1;
            return Err(JournalFault::BadLine { line });
        };
        journal.push(entry)?;
        rest = behind;
    }
    Ok(journal)
}

/// The text of a journal is that of no other, and has no bad line: so what `journal_text` wrote reads back as the
/// same journal, where memory suffices.
pub fn texts_tell_journals()
    ensures one { TextsTell }
    ensures good { TextsHaveNoBadLine }
{}
