//! Compiled code is tidy: the instruction after each call drops its result or stores it in a slot for results.
#![tactic(auto)]

ghost use Rattle.tidy_code.specs.Laws.{BodiesAreTidy, PiecesAreTidy};

/// The lines of a tidy piece are tidy code.
pub fn pieces_are_tidy()
    ensures { PiecesAreTidy }
{}

/// The code of each task of each tree is tidy, whether or not the tree keeps the rules.
pub fn bodies_are_tidy()
    ensures { BodiesAreTidy }
{}
