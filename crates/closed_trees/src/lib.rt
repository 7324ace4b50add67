//! What follows when an operation's own work has ended, on a board's table of operations and on the tree of the boards' laws.
//!
//! What is said stands under specs/. Each function has an empty body; its contract is a law.
#![tactic(auto)]

ghost use Rattle.changed_trees.specs.Open.{ClosingsShow};

/// Where a board is shown but for one operation that may be over, what follows on the table, and settling the operation and
/// all above it in the tree, leave a board that is shown.
pub fn closings_show()
    ensures { ClosingsShow }
{}
