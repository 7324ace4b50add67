//! What a segment of any code does with regions and needs.
//!
//! What is said stands under specs/. Each function has an empty body; its contract is a law.
#![tactic(auto)]

ghost use Rattle.segment_regions.specs.Values.{SegmentsKeepValues};
ghost use Rattle.segment_regions.specs.Wants.{WantsAreNeeded};
ghost use Rattle.segment_regions.specs.Frames.{SegmentsKeepFrames};
ghost use Rattle.segment_regions.specs.Pendings.{SegmentsAskNoOther};

/// The values that a segment leaves in its frame and hands to calls come from those of the frame that it ran from, and so
/// does the region that it divides.
pub fn segments_keep_values()
    ensures { SegmentsKeepValues }
{}

/// A part that a segment wants is needed by the frame that it leaves, and isn't among the parts that it leaves.
pub fn wants_are_needed()
    ensures { WantsAreNeeded }
{}

/// A segment leaves its frame's task, depth, needs and roots as they are.
pub fn segments_keep_frames()
    ensures { SegmentsKeepFrames }
{}

/// The frame that a segment leaves asks for the values of no other children than the frame from which it ran: of those that
/// it holds as pending, and of those that weren't called yet.
pub fn segments_ask_no_other()
    ensures { SegmentsAskNoOther }
{}
