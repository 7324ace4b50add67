//! Loops that are index launches (Regent, SC 2015) and loops that aren't, evaluated on the rules.
//!
//! The statements are under specs/. The function has an empty body; its contract is the result.
#![tactic(auto)]

ghost use Rattle.launch_rules.specs.Example.{LoopsAreTold, ShapesAreTold};

/// A program with a loop for each reason against a launch.
#[tactic(auto, using(crate::proofs::Example::loops_are_told, crate::proofs::Example::shapes_are_told))]
pub fn demanded_loops()
    ensures lines { LoopsAreTold }
    ensures shapes { ShapesAreTold }
{}
