//! Calls on a board's state and on the tree of the boards' laws: both are changed alike.
//!
//! What is said stands under specs/. The function has an empty body; its contract is a law.
#![tactic(auto)]

ghost use Rattle.called_trees.specs.Laws.{CallsOpen};

/// Behind a segment that calls tasks their children are issued on both, up to a call that can't be made, which breaks the
/// caller on both.
pub fn calls_open()
    ensures { CallsOpen }
{}
