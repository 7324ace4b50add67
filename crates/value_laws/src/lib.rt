//! Values fit their static types in programs without a breach: a number fits its width, a pointer has a position
//! of its list, a region or partition is one of a root with its field space, and what the store keeps fits.
//!
//! The laws are stated under specs/. Each function has an empty body; its contract is a law.
#![tactic(auto)]

ghost use Rattle.value_laws.specs.Laws.{ValuesFit};

/// An expression's value fits its static type, and its evaluation keeps what the names and the store hold fit.
pub fn values_fit()
    ensures { ValuesFit }
{}
