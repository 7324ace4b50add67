//! Code with a mark for each of its lines is valid.
//!
//! The law is stated under specs/. The function has an empty body; its contract is the law.
#![tactic(auto)]

ghost use Rattle.marked_code.specs.Bodies.{MarkedBodiesAreValid};

/// A body is valid whose code, piece by piece, leads from the mark of each line to that of the next.
#[tactic(auto, using(crate::proofs::Validity::valid_of))]
pub fn marked_bodies_are_valid()
    ensures { MarkedBodiesAreValid }
{}
