//! Operations of a board in progress, whatever steps its seats made.
//!
//! What is said stands under specs/. Each function has an empty body; its contract is a law.
#![tactic(auto)]

ghost use Rattle.journal_progress.specs.Claims.{SomeMayBeClaimed, TakenBackAsBefore, TakenBackWhereItWas};
ghost use Rattle.journal_progress.specs.Laws.{CurrentNeedsAreApart, NeedsAreIssued, NoneInProgressInterfere, OwnRootsAreApart, UnfinishedAreListed};
ghost use Rattle.journal_progress.specs.Parts.{HeldPartsAreApart, HeldPartsAreApartNow, MovedFromMap};
ghost use Rattle.journal_progress.specs.Ready.{NoneWaitForFailed, ReadyAreClaimed, UnendedAreListed};
ghost use Rattle.journal_progress.specs.Steps.{JournalsShow, VoidJobsStay};

/// A journal leads to what shows the board of the laws to which the same steps lead, or neither leads anywhere.
pub fn journals_show()
    ensures { JournalsShow }
{}

/// On the board of a void job no step may be made.
pub fn void_jobs_stay()
    ensures { VoidJobsStay }
{}

/// The graph lists each operation that isn't over but main.
pub fn unfinished_are_listed()
    ensures { UnfinishedAreListed }
{}

/// The graph lists the operations that haven't ended, but main, and no others; callers and children are told alike.
pub fn unended_are_listed()
    ensures { UnendedAreListed }
{}

/// An operation can be claimed exactly where all that it waits for has ended, by the needs with which others were issued.
pub fn ready_are_claimed()
    ensures { ReadyAreClaimed }
{}

/// Nothing that waits does so for what has failed or was dropped.
pub fn none_wait_for_failed()
    ensures { NoneWaitForFailed }
{}

/// Operations in progress, neither the other's ancestor, don't interfere.
pub fn none_in_progress_interfere()
    ensures { NoneInProgressInterfere }
{}

/// Nor do they by what they need of roots that they made themselves.
pub fn own_roots_are_apart()
    ensures { OwnRootsAreApart }
{}

/// An operation whose own work goes on needs what it was issued with, and what it made.
pub fn needs_are_issued()
    ensures { NeedsAreIssued }
{}

/// What operations in progress, neither the other's ancestor, need now doesn't interfere.
pub fn current_needs_are_apart()
    ensures { CurrentNeedsAreApart }
{}

/// What an operation holds, and what it is being filled with, doesn't interfere with what its unfinished children need.
pub fn held_parts_are_apart()
    ensures { HeldPartsAreApart }
{}

/// Nor with what they need now.
pub fn held_parts_are_apart_now()
    ensures { HeldPartsAreApartNow }
{}

/// What was moved for an operation that is being filled equals the map.
pub fn moved_from_map()
    ensures { MovedFromMap }
{}

/// A board that has no result and no claim out has a ready operation.
pub fn some_may_be_claimed()
    ensures { SomeMayBeClaimed }
{}

/// A claim that is taken back leaves the board as it was.
pub fn taken_back_as_before()
    ensures { TakenBackAsBefore }
{}

/// A claim that is taken back after other steps leaves its operation where it was.
pub fn taken_back_where_it_was()
    ensures { TakenBackWhereItWas }
{}
