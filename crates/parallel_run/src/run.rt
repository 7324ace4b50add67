//! Runs of a job.

ghost use Rattle.std.specs.Prelude.{◌≡◌, ◌↔◌, IfOk, Some};
ghost use Rattle.machine_terms.specs.Jobs.{order_run};
ghost use Rattle.parallel_run.specs.Runs.{CameFrom, HasEnded, IsInOrder, IsOfJob, outcome_of};

use crate::origin::{Origin, origin_of};
use crate::ran::Ran;
use plain_run::run_in_order;
use std::alloc::{AllocError, Global};
use std::sync::Wait;
use std::thread::Threads;
use task_code::Job;
use worker_run::{Board, Gate, run_by_workers};

/// Runs a job by so many workers, and in order where there are none, or where the board that they leave can't be used.
///
/// Whatever the workers do, and however their steps come, the outcome is that of the run in order.
pub fn run_job<G: Gate, R: Threads + Wait + Sync>(
    rt: &R,
    alloc: Global,
    job: &Job,
    workers: u16,
    gate: &G,
) -> Result<Ran, AllocError>
    ensures ended { IfOk result (λ ran. HasEnded ran) }
    ensures outcome { IfOk result (λ ran. outcome_of ran ≡ Some (order_run job.now)) }
    ensures job { IfOk result (λ ran. IsOfJob job.now ran) }
    ensures in_order { IfOk result (λ ran. IsInOrder ran ↔ (workers ≡ 0)) }
{
    if workers == 0 {
        return Ok(Ran::InOrder(run_in_order(alloc, job)?));
    }
    let board = run_by_workers(rt, alloc, job.copy()?, workers, gate)?;
    use_board(alloc, job, board)
}

/// The run of a board that workers left, where it is of this job and has a result.
fn use_board(alloc: Global, job: &Job, board: Board) -> Result<Ran, AllocError>
    ensures ended { IfOk result (λ ran. HasEnded ran) }
    ensures outcome { IfOk result (λ ran. outcome_of ran ≡ Some (order_run job.now)) }
    ensures job { IfOk result (λ ran. IsOfJob job.now ran) }
    ensures from { IfOk result (λ ran. CameFrom job.now board ran) }
{
    match origin_of(job, &board) {
        Origin::OtherJob => Ok(Ran::OtherJob(run_in_order(alloc, job)?)),
        Origin::NoResult => Ok(Ran::NoResult(run_in_order(alloc, job)?)),
        Origin::Board => Ok(Ran::ByWorkers(board)),
    }
}
