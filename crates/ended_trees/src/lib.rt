//! What a segment that ends its operation's own work makes of a board's state and of the tree of the boards' laws: both are
//! changed alike at the operation.
//!
//! What is said stands under specs/. Each function has an empty body; its contract is a law.
#![tactic(auto)]

ghost use Rattle.ended_trees.specs.Laws.{EndsOpen, FaultsOpen, MachineFaultsOpen};

/// An operation that came to its end closes with its value, on both, and its parts go back.
pub fn ends_open()
    ensures { EndsOpen }
{}

/// An operation that faulted closes with its fault, on both.
pub fn faults_open()
    ensures { FaultsOpen }
{}

/// An operation whose code did what no compiled program does is broken, on both.
pub fn machine_faults_open()
    ensures { MachineFaultsOpen }
{}
