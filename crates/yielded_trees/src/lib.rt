//! What a segment's yield makes of a board's state and of the tree of the boards' laws: both are changed alike at its
//! operation.
//!
//! What is said stands under specs/. Each function has an empty body; its contract is a law.
#![tactic(auto)]

ghost use Rattle.yielded_trees.specs.Laws.{AwaitsOpen, WantsOpen};

/// Behind a segment that wants a part the operation waits for the children that interfere with it, on both, or is stopped.
pub fn wants_open()
    ensures { WantsOpen }
{}

/// Behind a segment that awaits a child's answer the operation waits for the child, on both, or is stopped.
pub fn awaits_open()
    ensures { AwaitsOpen }
{}
