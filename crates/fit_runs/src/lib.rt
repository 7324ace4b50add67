//! The run in order of sound code: each of its segments begins from a state that fits.
//!
//! The laws are stated under specs/. Each function has an empty body; its contract is a law.
#![tactic(auto)]

ghost use Rattle.fit_runs.specs.Runs.{RunsFit};

/// Where all code is sound and the first frame fits, each instance to which the run in order comes, behind a segment or
/// by a call, begins its next segment from a state that fits; so no segment of the run breaks.
#[tactic(auto, using(crate::proofs::Running::runs_fit))]
pub fn runs_fit()
    ensures { RunsFit }
{}
