//! Laws of sound code: from every machine that fits, a segment ends well, and what it leaves fits again.
//!
//! What fits stands under specs/ of fit_rules. Each function has an empty body; its contract is a law.
#![tactic(auto)]

ghost use Rattle.fit_laws.specs.Example.{ExampleEnds, ExampleIsSound};
ghost use Rattle.fit_laws.specs.Launching.{LaunchCalls, LaunchIsSound};
ghost use Rattle.fit_laws.specs.Makes.{PartitionsAreMade, PartsAreFetched, RootsAreClaimed};
ghost use Rattle.fit_laws.specs.Segments.{ChildrenAreWithin, ChildrenPass, NoSegmentBreaks, PartitionsAreSound, SegmentsKeepFitting, TouchesAreCovered};
ghost use Rattle.fit_laws.specs.Within.{CoveredNeedsAreWithin};

/// From every Before that fits sound code the After fits again, and the segment isn't a machine fault.
pub fn segments_keep_fitting()
    ensures fits { SegmentsKeepFitting }
    ensures unbroken { NoSegmentBreaks }
{}

/// Each of its touches is covered by the declarations of its task, what its children need is within what
/// it needs, and its partitions are within their regions and keep their flags.
pub fn segments_keep_their_declarations()
    ensures touches { TouchesAreCovered }
    ensures children { ChildrenAreWithin }
    ensures tested { ChildrenPass }
    ensures partitions { PartitionsAreSound }
{}

/// What a call needs is within what its caller needs, where each need is covered at each point of its region.
#[tactic(auto, using(crate::proofs::Within::covered_needs_are_within))]
pub fn covered_needs_are_within()
    ensures { CoveredNeedsAreWithin }
{}

/// What the run in order makes is what a state is asked to go on with: the needs on a new root, and a
/// partition of its sets; and so is the part that it fetches, where the numbers that are kept fit.
pub fn made_things_are_as_asked()
    ensures roots { RootsAreClaimed }
    ensures partitions { PartitionsAreMade }
    ensures parts { PartsAreFetched }
{}

/// Code that makes a root, and reads and writes through a region that is known to lie within another; from a
/// state in its middle that fits it ends.
pub fn example_is_sound()
    ensures sound { ExampleIsSound }
    ensures ends { ExampleEnds }
{}

/// Code that launches a task over two colours, with the child of a partition, a slot's number, a number and the
/// colour; a segment at the launch calls the task for each colour.
pub fn launch_is_sound()
    ensures sound { LaunchIsSound }
    ensures calls { LaunchCalls }
{}
