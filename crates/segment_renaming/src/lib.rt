//! Laws of segments whose roots and nodes have other numbers: a segment asks of roots only whether they are
//! the same, and of nodes nothing. So the numbers in which a schedule makes roots don't matter.
//!
//! What is said stands under specs/. Each function has an empty body; its contract is a law.
#![tactic(auto)]

ghost use Rattle.segment_renaming.specs.Renaming.{SegmentsRunRenamed};
ghost use Rattle.segment_renaming.specs.Resuming.{AwaitedRenamed, OpeningsRenamed, PartitionsRenamed, RootsRenamed};

/// Where roots and nodes have other numbers, no two roots the same one, a segment gives the same with these
/// numbers.
pub fn segments_run_renamed()
    ensures { SegmentsRunRenamed }
{}

/// What an instance is given between its segments is renamed with it.
pub fn resumptions_are_renamed()
    ensures awaited { AwaitedRenamed }
    ensures opening { OpeningsRenamed }
    ensures root { RootsRenamed }
    ensures partition { PartitionsRenamed }
{}
