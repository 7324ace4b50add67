//! Claims, copies and claims that are taken back, on a board's table of operations and on the tree of the boards' laws.
//!
//! What is said stands under specs/. Each function has an empty body; its contract is a law.
#![tactic(auto)]

ghost use Rattle.claimed_trees.specs.Laws.{BacksShow, ClaimsShow, CopiesShow};

/// Where a state shows a board, an operation can be claimed on both or on neither, and what results shows again.
pub fn claims_show()
    ensures { ClaimsShow }
{}

/// Where a state shows a board, the next elements of a wanted part can be moved on both or on neither, and what results
/// shows again.
pub fn copies_show()
    ensures { CopiesShow }
{}

/// Where a state shows a board, a claim can be taken back on both or on neither, and what results shows again.
pub fn backs_show()
    ensures { BacksShow }
{}
