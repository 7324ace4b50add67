//! Runs of one board that are given to another one.

use crate::driving::{Held, give, run, take};
use crate::row::Row;
use board_terms::Claim;
use machine_terms::Ran;
use std::alloc::{AllocError, Global};
use task_code::Job;
use task_core::{Board, Copied, Given};

/// A program that no row has.
const STRANGER: &str = "task main() regentlib.c.printf(\"stranger\") end";

fn strange_job(alloc: Global) -> Result<Option<Job>, AllocError> {
    let mut row = Row::new(alloc, "stranger", "")?;
    row.add_line(STRANGER)?;
    row.job(alloc)
}

/// The run of a claim, where there is one.
fn run_of(alloc: Global, held: Option<&Held>) -> Result<Option<Ran>, AllocError> {
    match held {
        Some(held) => Ok(Some(run(alloc, held)?)),
        None => Ok(None),
    }
}

/// The run of the first claim of a board; none where nothing is ready.
fn first_run(alloc: Global, board: &mut Board) -> Result<Option<Ran>, AllocError> {
    let first = take(board, 0)?;
    run_of(alloc, first.as_ref())
}

/// The run of the first claim of another board.
fn strange_run(alloc: Global) -> Result<Option<Ran>, AllocError> {
    let Some(job) = strange_job(alloc)? else {
        return Ok(None);
    };
    let mut other = Board::open(alloc, job)?;
    first_run(alloc, &mut other)
}

/// Whether a run comes back from a board, with what that keeps for the claim where it is to keep something, and else with
/// nothing.
fn comes_back(
    board: &mut Board,
    claim: Claim,
    ran: Result<Option<Ran>, AllocError>,
    keeps: bool,
) -> Result<bool, AllocError> {
    let Some(ran) = ran? else {
        return Ok(false);
    };
    match board.give(claim, ran) {
        Ok(Given::Stranger(_, kept)) => Ok(kept.is_some() == keeps),
        Ok(Given::Taken) => Ok(false),
        Err((failed, _)) => Err(failed),
    }
}

/// Whether nothing is copied or taken back under a claim.
fn is_gone(board: &mut Board, claim: Claim) -> Result<bool, AllocError> {
    Ok(matches!(board.copy(claim)?, Copied::Gone) && !board.take_back(claim))
}

/// What is done with a claim that is out, after its own board.
#[derive(Clone, Copy)]
enum Trial {
    /// Another board's run is given; it comes back with what is kept for the claim.
    Strange,
    /// Its own run is given, which is taken.
    Own,
    /// The claim is gone.
    Gone,
    /// Its own run is given once more; it comes back with nothing.
    Again,
}

const TRIALS: [Trial; 4] = [Trial::Strange, Trial::Own, Trial::Gone, Trial::Again];

/// Whether a trial comes out so.
fn comes_out(
    alloc: Global,
    board: &mut Board,
    own: &Held,
    trial: Trial,
) -> Result<bool, AllocError> {
    match trial {
        Trial::Strange => comes_back(board, own.claim, strange_run(alloc), true),
        Trial::Own => give(alloc, board, own),
        Trial::Gone => is_gone(board, own.claim),
        Trial::Again => comes_back(board, own.claim, run_of(alloc, Some(own)), false),
    }
}

fn all_come_out(alloc: Global, board: &mut Board, own: &Held) -> Result<bool, AllocError> {
    for trial in TRIALS {
        if !comes_out(alloc, board, own, trial)? {
            return Ok(false);
        }
    }
    Ok(true)
}

/// Whether the trials of a board's first claim come out; not where it has none.
fn first_comes_out(alloc: Global, board: &mut Board) -> Result<bool, AllocError> {
    match take(board, 0)? {
        Some(own) => all_come_out(alloc, board, &own),
        None => Ok(false),
    }
}

/// Whether a board hands another board's run back with what it keeps for the claim, then takes its own run, and knows the
/// claim no longer: a run that comes once more comes back with nothing, no copy is made, and nothing is taken back.
pub fn strangers_come_back(alloc: Global, job: &Job) -> Result<bool, AllocError> {
    let mut board = Board::open(alloc, job.copy()?)?;
    first_comes_out(alloc, &mut board)
}
