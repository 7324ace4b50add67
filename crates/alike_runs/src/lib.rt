//! Runs alike: where calls answer alike, the runs of a block are alike.
//!
//! The law is stated under specs/. The function has an empty body; its contract is the law.
#![tactic(auto)]

ghost use Rattle.alike_runs.specs.Laws.{RunsAlike};

/// Where calls answer alike, runs are alike.
pub fn runs_alike()
    ensures { RunsAlike }
{}
