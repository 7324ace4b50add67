//! Laws of launches: the compiler issues a loop in one step exactly where its shape is Launch.
//!
//! The laws are stated under specs/. Each function has an empty body; its contract is a law.
#![tactic(auto)]

ghost use Rattle.launch_laws.specs.Example.{ThreeLoopsHold};
ghost use Rattle.launch_laws.specs.Launched.{LaunchesAreThoseOfLoops};
ghost use Rattle.launch_laws.specs.Laws.{LoopsAreLaunchedByShape};

/// In a program without a breach a loop over points is launched, demanded or not, exactly where its shape is Launch,
/// and goes point by point exactly where it isn't.
pub fn loops_are_launched_by_shape()
    ensures { LoopsAreLaunchedByShape }
{}

/// The code of such a program has one launch for each loop whose shape is Launch, in the order of the text, and no other.
#[tactic(auto, using(crate::proofs::Programs::launches_are_those_of_loops))]
pub fn launches_are_those_of_loops()
    ensures { LaunchesAreThoseOfLoops }
{}

/// The code of a program with a demanded launch, one that isn't demanded, and a loop of two calls.
#[tactic(auto, using(crate::proofs::Example::three_loops_hold))]
pub fn example_of_launches()
    ensures { ThreeLoopsHold }
{}
