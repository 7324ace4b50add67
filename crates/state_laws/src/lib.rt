//! States fit in programs without a breach: each statement keeps that values fit their static types, and that
//! what the store keeps fits.
//!
//! The laws are stated under specs/. Each function has an empty body; its contract is a law.
#![tactic(auto)]

ghost use Rattle.state_laws.specs.Example.{ExampleFits};
ghost use Rattle.state_laws.specs.Laws.{StatementsFit};
ghost use Rattle.state_laws.specs.Operations.{OperationsAreTrue, RootsAreMade};
ghost use Rattle.state_laws.specs.Runs.{CallsFit, RunsFit, TextsFit};
ghost use Rattle.state_laws.specs.UnionExample.{UnionExampleFits};

/// Each statement keeps that the names' values fit their types, and that the store fits.
pub fn statements_fit()
    ensures { StatementsFit }
{}

/// A partition operation gives a partition of its parent's root, whose flag is true of its sets.
pub fn operations_are_true()
    ensures { OperationsAreTrue }
{}

/// A new root has the columns of its field space, and zeros that they keep.
pub fn roots_are_made()
    ensures { RootsAreMade }
{}

/// A place of a body, and a state, in which each premise of the law on statements holds.
pub fn example_fits()
    ensures { ExampleFits }
{}

/// Such a place in the middle of a body, where a union of partitions stands.
pub fn union_example_fits()
    ensures { UnionExampleFits }
{}

/// In a program without a breach that keeps the limits, declarations and the scopes in which bodies begin are as the
/// laws on places suppose.
pub fn texts_fit()
    ensures { TextsFit }
{}

/// The calls of a program without a breach give fitting answers on fitting arguments.
pub fn calls_fit()
    ensures { CallsFit }
{}

/// A run of such a program from inputs that fit keeps what fits, to its end or up to its first fault.
pub fn runs_fit()
    ensures { RunsFit }
{}
