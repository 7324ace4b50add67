//! Laws of programs without a breach: what the checker takes for known is what the meaning of programs
//! says.
//!
//! The laws are stated under specs/. Each function has an empty body; its contract is a law.
#![tactic(auto)]

ghost use Rattle.check_laws.specs.Laws.{AllIsKnown, BodiesAreMeant, ExpressionsAreKnown, PlacesAreWithoutBreach, StatementsAreMeant};

/// In a scope of which all is known, an expression of which no breach is told has the type that the
/// meaning gives it, and so have its parts.
#[tactic(auto, using(crate::proofs::Forms::expressions_are_known))]
pub fn expressions_are_known()
    ensures { ExpressionsAreKnown }
{}

/// In a program without a breach the scopes of bodies are those of the meaning.
#[tactic(auto, using(crate::proofs::Trees::bodies_are_meant))]
pub fn bodies_are_meant()
    ensures { BodiesAreMeant }
{}

/// In a program without a breach each statement stands in the scope that the meaning has there, in the
/// blocks of loops and of `if` too.
#[tactic(auto, using(crate::proofs::Trees::statements_are_meant))]
pub fn statements_are_meant()
    ensures { StatementsAreMeant }
{}

/// In a program without a breach no type is unknown: each expression has the type that the meaning gives
/// it in the scope of its statement.
pub fn all_is_known()
    ensures { AllIsKnown }
{}

/// In a program without a breach no rule is breached at any place where a statement stands, in the scope that
/// the meaning has there: not by the statement, nor by an expression in it.
pub fn places_are_without_breach()
    ensures { PlacesAreWithoutBreach }
{}
