//! Changes of a board's state: what it shows of the tree of the boards' laws goes on to be shown where nothing changes.
//!
//! What is said stands under specs/. Each function has an empty body; its contract is a law.
#![tactic(auto)]

ghost use Rattle.changed_trees.specs.Changes.{ChangesKeep};
ghost use Rattle.changed_trees.specs.Listed.{WaitsAreListed};

/// An operation that shows, and all below it, show again where nothing changes there.
pub fn changes_keep()
    ensures { ChangesKeep }
{}

/// The listed operations of an operation's context that interfere with needs are its children that do and haven't ended, but
/// maybe for some that a later one of these waits for.
pub fn waits_are_listed()
    ensures { WaitsAreListed }
{}
