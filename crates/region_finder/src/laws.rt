//! What stays as a tree grows. Each function has an empty body; its contract is a law.

ghost use Rattle.region_finder.specs.Laws.{AnswersStay, ListingsStay};

/// Listed needs have their nodes in a tree that has grown, with their ways.
#[tactic(auto, using(crate::proofs::Staying::listings_stay))]
pub fn listings_stay()
    ensures { ListingsStay }
{}

/// The same operations interfere by a tree that has grown.
#[tactic(auto, using(crate::proofs::Staying::answers_stay))]
pub fn answers_stay()
    ensures { AnswersStay }
{}
