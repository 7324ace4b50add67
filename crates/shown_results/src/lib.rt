//! What the table of a board comes to, where it shows a tree of operations.
//!
//! What is said stands under specs/. The function has an empty body; its contract is the law.
#![tactic(auto)]

ghost use Rattle.shown_results.specs.Results.{ResultsAreOrdered};
ghost use Rattle.shown_results.specs.Settled.{SettledIsOrdered};

/// Where a table shows a board, it has a result exactly where the board's first task is over, and that is the outcome of
/// the run in order.
pub fn results_are_ordered()
    ensures { ResultsAreOrdered }
{}

/// Where a fault comes before all that isn't over, the outcome that a table settles is that of the run in order.
pub fn settled_is_ordered()
    ensures { SettledIsOrdered }
{}
