//! What a board comes to that a journal leads to, whatever steps its seats made.
//!
//! What is said stands under specs/. Each function has an empty body; its contract is a law.
#![tactic(auto)]

ghost use Rattle.journal_results.specs.Gives.{GivesShow};
ghost use Rattle.journal_results.specs.Laws.{ResultsAreOrdered};
ghost use Rattle.journal_results.specs.Settled.{SettledIsOrdered};

/// A segment is given back on a board's state and in the tree of the boards' laws, or on neither, and then the state shows the
/// tree again.
pub fn gives_show()
    ensures { GivesShow }
{}

/// Whatever steps the seats of a job's board make, once it has finished it has the outcome of the run in order, and before
/// that it has none.
pub fn results_are_ordered()
    ensures { ResultsAreOrdered }
{}

/// Where a fault comes before all that isn't over, the outcome that a board settles is that of the run in order.
pub fn settled_is_ordered()
    ensures { SettledIsOrdered }
{}
