//! Operations of a board that have failed without a fault of their own, over any machine.
//!
//! What is said stands under specs/. The function has an empty body; its contract is the law.
#![tactic(auto)]

ghost use Rattle.board_rules.specs.Renaming.{ground_over};
ghost use Rattle.failure_laws.specs.Failures.{FailuresAreTold};

use board_rules::NumberedMachine;

/// One that was dropped has an earlier sibling that has failed, and one that was stopped has a child that has. The first
/// task is never dropped.
pub fn failures_are_told<T: NumberedMachine>()
    ensures { FailuresAreTold (ground_over T.base T.numbered) T.machines }
{}
