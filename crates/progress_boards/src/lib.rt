//! Boards of jobs in progress, whose operations, seats and roots are numbers.
//!
//! What is said stands under specs/. Each function has an empty body; its contract is a law of each job, compiled or
//! not, and whatever steps the seats make.
#![tactic(auto)]

ghost use Rattle.progress_boards.specs.Laws.{JobsFilled, JobsHeldApart, JobsInProgressApart, JobsIssuedNeeded, JobsSomeReady};

/// Operations in progress, neither the other's ancestor, don't interfere.
pub fn jobs_in_progress_apart()
    ensures { JobsInProgressApart }
{}

/// What an operation was issued with it still needs.
pub fn jobs_issued_needed()
    ensures { JobsIssuedNeeded }
{}

/// What an operation holds, and what it is being filled with, conflicts with no need of its unfinished children.
pub fn jobs_held_apart()
    ensures { JobsHeldApart }
{}

/// The elements that a claim has filled so far equal the map.
pub fn jobs_filled_from_map()
    ensures { JobsFilled }
{}

/// A board that isn't finished and has no claim has an operation that each seat can claim.
pub fn jobs_some_ready()
    ensures { JobsSomeReady }
{}
