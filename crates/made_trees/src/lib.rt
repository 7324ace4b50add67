//! Roots and partitions that a segment makes: the board's state and the tree of the boards' laws are changed alike.
//!
//! What is said stands under specs/. Each function has an empty body; its contract is a law.
#![tactic(auto)]

ghost use Rattle.made_trees.specs.Laws.{PartitionsOpen, RootsOpen};

/// Behind a segment that makes a root the operation has the root and needs it, and the root's zeros are there, on both.
pub fn roots_open()
    ensures { RootsOpen }
{}

/// Behind a segment that divides a region the operation has the partition, or is broken where the sets aren't sound, on both.
pub fn partitions_open()
    ensures { PartitionsOpen }
{}
