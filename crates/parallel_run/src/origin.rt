//! Where the outcome of a run by workers is from.

ghost use Rattle.std.specs.Prelude.{◌≡◌, IfOk, Some};
ghost use Rattle.board_terms.specs.Outcomes.{result as result_of};
ghost use Rattle.machine_terms.specs.Jobs.{order_run};
ghost use Rattle.parallel_run.specs.Runs.{IsFrom};
ghost use Rattle.parallel_run.specs.declared.origin.Origin.TheVariants as origin;

use plain_run::{copy_outcome, run_in_order};
use regent_tree::Outcome;
use std::alloc::{AllocError, Global};
use task_code::Job;
use worker_run::Board;

/// Where an outcome is from.
#[derive(Clone, Copy, Debug, PartialEq, Eq)]
pub enum Origin {
    /// The board that the workers left.
    Board,
    /// A run in order, as that board has no result.
    NoResult,
    /// A run in order, as that board is of another job.
    OtherJob,
}

/// The outcome of a job for which workers left a board, and where it is from.
#[derive(Debug, PartialEq, Eq, Drop)]
pub struct Settled {
    pub outcome: Outcome,
    pub from: Origin,
}

/// Where the outcome of a job is from for which workers left this board.
pub fn origin_of(job: &Job, board: &Board) -> Origin
    ensures from { IsFrom job.now board.now result }
    ensures outcome { result ≡ origin.Board → result_of board.now.state ≡ Some (order_run job.now) }
{
    if !board.job().same(job) {
        Origin::OtherJob
    } else if board.result().is_some() {
        Origin::Board
    } else {
        Origin::NoResult
    }
}

/// The outcome of a job for which workers left this board: that of the run in order, which is made anew where the board is of
/// another job or has no result.
pub fn settle_run(alloc: Global, job: &Job, board: &Board) -> Result<Settled, AllocError>
    ensures outcome { IfOk result (λ settled. settled.outcome ≡ order_run job.now) }
    ensures from { IfOk result (λ settled. IsFrom job.now board.now settled.from) }
{
    let from = origin_of(job, board);
    let outcome = match (from, board.result()) {
        (Origin::Board, Some(outcome)) => copy_outcome(alloc, outcome)?,
        _ => run_in_order(alloc, job)?,
    };
    Ok(Settled { outcome, from })
}
