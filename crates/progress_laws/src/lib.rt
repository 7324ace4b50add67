//! Boards in progress, whose operations, seats and roots are numbers.
//!
//! What is said stands under specs/. Each function has an empty body; its contract is a law over any machine. Where
//! needs are read, they have to be renamed with their roots.
#![tactic(auto)]

ghost use Rattle.board_rules.specs.Renaming.{ground_over};
ghost use Rattle.progress_laws.specs.Progress.{FilledByNumber, HeldApartByNumber, InProgressApartByNumber, IssuedByNumber, NeedsAreRenamed, SomeReadyByNumber};

use board_rules::NumberedMachine;

/// Operations in progress, neither the other's ancestor, don't interfere.
pub fn in_progress_apart<T: NumberedMachine>()
    ensures { NeedsAreRenamed T.base T.numbered T.named T.rename → InProgressApartByNumber (ground_over T.base T.numbered) T.machines T.is_job }
{}

/// What an operation was issued with it still needs.
pub fn issued_needed<T: NumberedMachine>()
    ensures { NeedsAreRenamed T.base T.numbered T.named T.rename → IssuedByNumber (ground_over T.base T.numbered) T.machines T.is_job }
{}

/// What an operation holds, and what it is being filled with, conflicts with no need of its unfinished children.
pub fn held_apart<T: NumberedMachine>()
    ensures { NeedsAreRenamed T.base T.numbered T.named T.rename → HeldApartByNumber (ground_over T.base T.numbered) T.machines T.is_job }
{}

/// The elements that a claim has filled so far equal the map.
pub fn filled_from_map<T: NumberedMachine>()
    ensures { FilledByNumber (ground_over T.base T.numbered) T.machines T.is_job }
{}

/// A board that isn't finished and has no claim out has an operation that each seat may claim.
pub fn some_ready<T: NumberedMachine>()
    ensures { SomeReadyByNumber (ground_over T.base T.numbered) T.machines T.is_job }
{}
