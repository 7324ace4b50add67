//! Boards of Regent's operations: the laws of boards at region requirements, frames, operators at their widths
//! and roots that are made, over every segment that gives back the parts that it was given.
//!
//! What is said stands under specs/. Each function has an empty body; its contract is a law.
#![tactic(auto)]

ghost use Rattle.regent_boards.specs.Folds.{FoldsAreApplied, FoldsSwap};
ghost use Rattle.regent_boards.specs.Laws.{RegentBoards, RegentByNumber};

/// Two folds with one operator come to the same in either order, and on numbers of the width a fold is the operator.
#[tactic(auto, using(crate::proofs::Folds::folds_swap, crate::proofs::Folds::folds_are_applied))]
pub fn folds_swap()
    ensures swap { FoldsSwap }
    ensures applied { FoldsAreApplied }
{}

/// Whatever steps a journal has, a board keeps the order of the program.
pub fn regent_boards()
    ensures { RegentBoards }
{}

/// With operations, seats and roots by numbers, over every segment that runs renamed as well: a finished board has
/// the outcome of the run in order.
#[tactic(auto, using(crate::proofs::ByNumber::regent_by_number))]
pub fn regent_by_number()
    ensures { RegentByNumber }
{}
