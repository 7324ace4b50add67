//! Calls on a board of a task that does nothing, and on one of a void job.

use crate::jobs::{Main, job};
use crate::looks::{is_broken, is_of_main, main_claim};
use board_terms::Claim;
use region_tree::OpNumber;
use run_journal::StepKind;
use std::alloc::{AllocError, Global};
use std::test::Fail;
use task_code::Job;
use task_core::{Board, Copied};

/// A call, and what comes of it.
#[derive(Clone, Copy)]
enum Call {
    /// A seat claims main, under this turn.
    Claims(u16, u64),
    /// A seat finds nothing to claim.
    ClaimsNothing(u16),
    /// The operation of this number can't be claimed.
    IsNotThere(u64),
    /// So many operations are in progress: none, or main.
    InProgress(usize),
    /// A copy starts the segment of a seat's claim under this turn.
    Starts(u16, u64),
    /// A copy finds that this claim isn't being filled.
    IsGone(u16, u64),
    /// Such a claim is taken back, or there is nothing to take back.
    TakesBack(u16, u64, bool),
    /// There is no result.
    GoesOn,
    /// The board is broken.
    IsBroken,
    /// The board is of a job with this main.
    IsOf(Main),
}

fn claims(
    claimed: Result<Option<Claim>, AllocError>,
    claim: Option<Claim>,
) -> Result<bool, AllocError> {
    Ok(claimed? == claim)
}

/// Whether so many operations are in progress, main before all others.
fn has_begun(
    in_progress: Result<Vec<OpNumber>, AllocError>,
    count: usize,
) -> Result<bool, AllocError> {
    let begun = in_progress?;
    Ok(begun.len() == count && begun.iter().all(|op| *op == OpNumber(0)))
}

fn starts(copied: Result<Copied, AllocError>) -> Result<bool, AllocError> {
    Ok(matches!(copied?, Copied::Start(_)))
}

fn is_gone(copied: Result<Copied, AllocError>) -> Result<bool, AllocError> {
    Ok(matches!(copied?, Copied::Gone))
}

fn is_of(board: &Board, job: Result<Job, AllocError>) -> Result<bool, AllocError> {
    Ok(board.job().same(&job?))
}

/// Makes a call, and returns whether it came out so.
fn comes_out(alloc: Global, board: &mut Board, call: Call) -> Result<bool, AllocError> {
    match call {
        Call::Claims(seat, turn) => claims(board.claim(seat), Some(main_claim(seat, turn))),
        Call::ClaimsNothing(seat) => claims(board.claim(seat), None),
        Call::IsNotThere(number) => claims(board.claim_at(OpNumber(number), 0), None),
        Call::InProgress(count) => has_begun(board.in_progress(), count),
        Call::Starts(seat, turn) => starts(board.copy(main_claim(seat, turn))),
        Call::IsGone(seat, turn) => is_gone(board.copy(main_claim(seat, turn))),
        Call::TakesBack(seat, turn, taken) => {
            Ok(board.take_back(main_claim(seat, turn)) == taken)
        }
        Call::GoesOn => Ok(board.result().is_none()),
        Call::IsBroken => Ok(is_broken(board)),
        Call::IsOf(main) => is_of(board, job(alloc, main)),
    }
}

/// The place of the first call that doesn't come out.
fn first_wrong(
    alloc: Global,
    board: &mut Board,
    calls: &[Call],
) -> Result<Option<usize>, AllocError> {
    for (place, call) in calls.iter().enumerate() {
        if !comes_out(alloc, board, *call)? {
            return Ok(Some(place));
        }
    }
    Ok(None)
}

/// The place of the first call that doesn't come out, and whether the journal has these steps of a seat then.
fn went(
    alloc: Global,
    board: &mut Board,
    calls: &[Call],
    seat: u16,
    steps: &[StepKind],
) -> Result<(Option<usize>, bool), AllocError> {
    let wrong = first_wrong(alloc, board, calls)?;
    Ok((wrong, is_of_main(board.journal(), seat, steps)))
}

/// The same on a new board of a job with this main.
fn went_on_new(
    alloc: Global,
    main: Main,
    calls: &[Call],
    seat: u16,
    steps: &[StepKind],
) -> Result<(Option<usize>, bool), AllocError> {
    let mut board = Board::open(alloc, job(alloc, main)?)?;
    went(alloc, &mut board, calls, seat, steps)
}

#[test]
fn main_is_claimed_once(rt: HostRuntime) -> Result<(), Fail> {
    let calls = [
        Call::IsNotThere(7),
        Call::InProgress(0),
        Call::Claims(0, 0),
        Call::ClaimsNothing(1),
        Call::InProgress(1),
        Call::Starts(0, 0),
        Call::IsGone(0, 0),
        Call::GoesOn,
    ];
    let steps = [StepKind::Claim, StepKind::Copy];
    let went = went_on_new(rt.alloc(), Main::Calls(0), &calls, 0, &steps)?;
    assert_eq!(rt; went, (None, true));
    Ok(())
}

/// A claim is taken back once, and stays gone when main is claimed anew. That claim can be taken back when its segment has
/// started.
#[test]
fn claims_are_taken_back(rt: HostRuntime) -> Result<(), Fail> {
    let calls = [
        Call::Claims(3, 0),
        Call::TakesBack(3, 0, true),
        Call::TakesBack(3, 0, false),
        Call::Claims(3, 1),
        Call::IsGone(3, 0),
        Call::TakesBack(3, 0, false),
        Call::Starts(3, 1),
        Call::TakesBack(3, 1, true),
    ];
    let steps = [
        StepKind::Claim,
        StepKind::Back,
        StepKind::Claim,
        StepKind::Copy,
        StepKind::Back,
    ];
    let went = went_on_new(rt.alloc(), Main::Calls(0), &calls, 3, &steps)?;
    assert_eq!(rt; went, (None, true));
    Ok(())
}

#[test]
fn a_void_job_is_broken(rt: HostRuntime) -> Result<(), Fail> {
    let calls = [
        Call::ClaimsNothing(0),
        Call::IsBroken,
        Call::IsOf(Main::Void),
    ];
    let went = went_on_new(rt.alloc(), Main::Void, &calls, 0, &[])?;
    assert_eq!(rt; went, (None, true));
    Ok(())
}
