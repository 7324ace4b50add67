//! The laws of boards whose operations, seats and roots are numbers.
#![tactic(auto)]

ghost use Rattle.board_rules.specs.ByNumber.{FinishedByNumber};
ghost use Rattle.board_rules.specs.Known.{SettledByNumber};

use board_rules::NumberedMachine;

/// A finished board has the outcome of the run in order, though the two number their roots differently.
#[tactic(auto, using(crate::proofs::ByNumber::finished_by_number))]
pub fn finished_by_number<T: NumberedMachine>()
    ensures { FinishedByNumber T.base T.numbered T.named T.machines T.naming T.rename T.is_job }
{}

/// Where a fault comes before all that isn't over, the run in order ends at it.
#[tactic(auto, using(crate::proofs::Known::settled_by_number))]
pub fn settled_by_number<T: NumberedMachine>()
    ensures { SettledByNumber T.base T.numbered T.machines T.is_job }
{}
