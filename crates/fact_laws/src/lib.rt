//! Laws of known facts: what is derived of regions holds of them wherever the facts do.
//!
//! The laws are stated under specs/. Each function has an empty body; its contract is a law.
#![tactic(auto)]

ghost use Rattle.fact_laws.specs.Example.{ExampleFactsHold, ExampleIsAnswered};
ghost use Rattle.fact_laws.specs.Laws.{AnswersHold, DerivedRelationsHold, LackingColoursAreEmpty, OtherRootsShareNoPoint};

/// Where the facts hold of the regions, so does each relation that is derivable from them.
#[tactic(auto, using(crate::proofs::Facts::derived_relations_hold))]
pub fn derived_relations_hold()
    ensures { DerivedRelationsHold }
{}

/// Where the facts hold of the regions, so do the answers that are computed from them. An answer to `<=`
/// holds of each region that its right side stands for.
#[tactic(auto, using(crate::proofs::Facts::answers_hold))]
pub fn answers_hold()
    ensures { AnswersHold }
{}

/// Regions of different roots share no point.
#[tactic(auto, using(crate::proofs::Facts::other_roots_share_no_point))]
pub fn other_roots_share_no_point()
    ensures { OtherRootsShareNoPoint }
{}

/// A colour that a partition lacks has no point.
#[tactic(auto, using(crate::proofs::Facts::lacking_colours_are_empty))]
pub fn lacking_colours_are_empty()
    ensures { LackingColoursAreEmpty }
{}

/// Some facts and regions of which all of them hold, and what the laws say there.
#[tactic(auto, using(crate::proofs::Example::example_facts_hold, crate::proofs::Example::example_is_answered))]
pub fn example_holds()
    ensures facts { ExampleFactsHold }
    ensures answers { ExampleIsAnswered }
{}
