//! The compiler as a definition: from a program's tree to its code.
//!
//! The definitions are under specs/. A function with an empty body says a law of them by its contract.
#![tactic(auto)]

ghost use Rattle.code_rules.specs.Laws.{BodiesAreShort, LaidOut, SlotsAreFew};

/// Code that is put at the end of a body, with the jumps over a piece put in last, is the code of the piece.
#[tactic(auto, using(crate::proofs::Laid::laid))]
pub fn laid_out()
    ensures { LaidOut }
{}

/// In a program within the limits each body has fewer than 2^32 instructions.
#[tactic(auto, using(crate::proofs::Bodies::bodies_are_short))]
pub fn bodies_are_short()
    ensures { BodiesAreShort }
{}

/// In a program within the limits each task uses fewer than 2^32 slots.
#[tactic(auto, using(crate::proofs::FewSlots::slots_are_few))]
pub fn slots_are_few()
    ensures { SlotsAreFew }
{}
