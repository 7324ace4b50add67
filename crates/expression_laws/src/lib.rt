//! Laws of the expressions of programs without a breach: values have their static types, and each touch is
//! covered by what the task declares.
//!
//! The laws are stated under specs/. Each function has an empty body; its contract is a law.
#![tactic(auto)]

ghost use Rattle.expression_laws.specs.Laws.{ArgumentsFit, CallsLieWithin, ValuesHaveTheirTypes};

/// An expression's value is of the kind that its static type says, and each touch that its evaluation makes
/// is covered by the declarations of its task, over all names and every store.
pub fn values_have_their_types()
    ensures { ValuesHaveTheirTypes }
{}

/// What a call needs lies within what its caller has.
pub fn calls_lie_within()
    ensures { CallsLieWithin }
{}

/// The arguments of a call fit the called task.
pub fn arguments_fit()
    ensures { ArgumentsFit }
{}
