//! What is seen of boards.

use board_terms::Claim;
use regent_tree::Ending;
use region_tree::OpNumber;
use run_journal::{Entry, StepKind};
use task_core::Board;

/// A seat's claim of main.
pub fn main_claim(seat: u16, turn: u64) -> Claim {
    Claim {
        op: OpNumber(0),
        seat,
        turn,
    }
}

/// Whether a board has finished, where it has a result.
pub fn finished(board: &Board) -> Option<bool> {
    match board.result() {
        Some(outcome) => Some(matches!(&outcome.ending, Ending::Finished(_))),
        None => None,
    }
}

/// Whether a board is broken, and has printed nothing.
pub fn is_broken(board: &Board) -> bool {
    match board.result() {
        Some(outcome) => matches!(&outcome.ending, Ending::Broken) && outcome.text.is_empty(),
        None => false,
    }
}

/// Whether a journal has these steps of main by a seat, and no other ones.
pub fn is_of_main(journal: &[Entry], seat: u16, steps: &[StepKind]) -> bool {
    let by_seat = journal
        .iter()
        .all(|entry| entry.op == OpNumber(0) && entry.seat == seat);
    by_seat
        && journal
            .iter()
            .map(|entry| entry.kind)
            .eq(steps.iter().copied())
}
