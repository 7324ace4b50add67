//! The rules that the checker checks: the breaches of a tree, as pairs of a rule and a line; and programs
//! without a breach.
//!
//! The definitions are under specs/. A function with an empty body says a law of them by its contract.
#![tactic(auto)]

ghost use Rattle.check_rules.specs.Laws.{TypesAsMeant, PairsKept, FirstIsOne, NoneWithoutFirst};

mod accepted;
mod loop_shape;
mod rule;

pub use accepted::Accepted;
pub use loop_shape::LoopShape;
pub use rule::Rule;

/// An expression has the type that the meaning of programs gives it, or an unknown one.
#[tactic(auto, using(crate::proofs::Laws::types_as_meant))]
pub fn types_as_meant()
    ensures { TypesAsMeant }
{}

/// Listing each pair once leaves no pair out and brings none in.
pub fn pairs_kept()
    ensures { PairsKept }
{}

/// The first breach that the checker comes upon is one of the breaches.
#[tactic(auto, using(crate::proofs::FirstInItems::first_is_one))]
pub fn first_is_one()
    ensures { FirstIsOne }
{}

/// There is no first breach exactly where there is no breach.
#[tactic(auto, using(crate::proofs::FirstInItems::none_without_first))]
pub fn none_without_first()
    ensures { NoneWithoutFirst }
{}
