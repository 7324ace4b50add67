//! Lists and pairs of numbers as numbers, one to one.
//!
//! What is said stands under specs/. Each function has an empty body; its contract is a law.
#![tactic(auto)]

ghost use Rattle.number_codes.specs.Lists.{ListsTell};
ghost use Rattle.number_codes.specs.Pairs.{PairsAreAll, PairsTell};

/// Each list is told by its number.
#[tactic(auto, using(crate::proofs::Lists::lists_tell))]
pub fn lists_tell()
    ensures { ListsTell }
{}

/// Each pair is told by its number, and each number is that of a pair.
#[tactic(auto, using(crate::proofs::Pairs::pairs_tell, crate::proofs::Pairs::pairs_are_all))]
pub fn pairs_tell()
    ensures told { PairsTell }
    ensures all { PairsAreAll }
{}
