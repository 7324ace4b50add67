//! Gives on a board's table and on the tree of the boards' laws: what a segment leaves, and what it makes of both.
//!
//! What is said stands under specs/. Each function has an empty body; its contract is a law.
#![tactic(auto)]

ghost use Rattle.given_trees.specs.Parts.{PartsShow};
ghost use Rattle.given_trees.specs.Segments.{SegmentsShow};

/// The segment of an operation that is out leaves the same on the table and in the tree.
pub fn segments_show()
    ensures { SegmentsShow }
{}

/// Parts that go back leave maps that are one again.
pub fn parts_show()
    ensures { PartsShow }
{}
