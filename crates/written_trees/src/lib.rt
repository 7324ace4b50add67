//! Laws of the trees that texts spell: they are as the reader gives them, which other laws suppose.
//!
//! The laws are stated under specs/. A function has an empty body; its contract is the law.
#![tactic(auto)]

ghost use Rattle.written_trees.specs.Laws.{ReadTreesAreWithin, ReadTreesAreWritten};

/// In each tree that is read a prefix has a sign, a chain has a link, and a fill names a field.
pub fn read_trees_are_written()
    ensures { ReadTreesAreWritten }
{}

/// Each tree that is read is within the limits.
pub fn read_trees_are_within()
    ensures { ReadTreesAreWithin }
{}
