//! Jobs that are run by workers and in order.

use crate::jobs::{Main, job};
use parallel_run::{Origin, Ran, Settled, run_job, settle_run};
use plain_run::run_in_order;
use regent_tree::Outcome;
use run_journal::journal_read;
use std::alloc::{AllocError, Global};
use std::sync::Wait;
use std::test::Fail;
use std::thread::Threads;
use task_code::Job;
use task_core::Board;
use worker_gate::OpenGate;
use worker_run::run_by_workers;

/// Whether a run by so many workers is from their board, and from the run in order where there are none.
fn is_by(ran: &Ran, workers: u16) -> bool {
    match ran {
        Ran::InOrder(_) => workers == 0,
        Ran::ByWorkers(_) => workers != 0,
        Ran::OtherJob(_) | Ran::NoResult(_) => false,
    }
}

/// Whether a run by so many workers has this outcome.
fn has_outcome(
    ran: Result<Ran, AllocError>,
    workers: u16,
    wanted: &Outcome,
) -> Result<bool, AllocError> {
    let ran = ran?;
    Ok(is_by(&ran, workers) && ran.outcome() == Some(wanted))
}

/// Whether so many workers have the outcome of the run in order, on a job.
fn agrees<R: Threads + Wait + Sync>(
    rt: &R,
    alloc: Global,
    workers: u16,
    job: Result<Job, AllocError>,
) -> Result<bool, AllocError> {
    let job = job?;
    let wanted = run_in_order(alloc, &job)?;
    has_outcome(
        run_job(rt, alloc, &job, workers, &OpenGate),
        workers,
        &wanted,
    )
}

#[test]
fn workers_come_to_what_the_order_comes_to(rt: HostRuntime) -> Result<(), Fail> {
    for workers in [0, 1, 4, 64] {
        let same = agrees(&rt, rt.alloc(), workers, job(rt.alloc(), Main::Calls(20)))?;
        assert!(rt; same, "{workers} workers");
    }
    Ok(())
}

/// How a job of 20 calls is run.
#[derive(Clone, Copy)]
enum How {
    /// By so many workers.
    By(u16),
    /// In order, after a board of another job.
    AfterOtherJob,
    /// In order, after a board without a result.
    AfterNoResult,
}

fn ran<R: Threads + Wait + Sync>(
    rt: &R,
    alloc: Global,
    job: &Job,
    how: How,
) -> Result<Ran, AllocError> {
    match how {
        How::By(workers) => run_job(rt, alloc, job, workers, &OpenGate),
        How::AfterOtherJob => Ok(Ran::OtherJob(run_in_order(alloc, job)?)),
        How::AfterNoResult => Ok(Ran::NoResult(run_in_order(alloc, job)?)),
    }
}

fn trace(alloc: Global, ran: Result<Ran, AllocError>) -> Result<Vec<u8>, AllocError> {
    ran?.trace_text(alloc)
}

fn trace_of<R: Threads + Wait + Sync>(
    rt: &R,
    alloc: Global,
    how: How,
) -> Result<Vec<u8>, AllocError> {
    let job = job(alloc, Main::Calls(20))?;
    trace(alloc, ran(rt, alloc, &job, how))
}

fn is_line(text: Result<Vec<u8>, AllocError>, line: &[u8]) -> Result<bool, AllocError> {
    Ok(text?.as_slice() == line)
}

fn is_journal(alloc: Global, text: Result<Vec<u8>, AllocError>) -> Result<bool, AllocError> {
    Ok(journal_read(alloc, text?.as_slice()).is_ok())
}

/// A run by workers is traced by a journal, and one in order by its line.
#[test]
fn traces_of_runs(rt: HostRuntime) -> Result<(), Fail> {
    let in_order = is_line(trace_of(&rt, rt.alloc(), How::By(0)), b"in order\n")?;
    let by_workers = is_journal(rt.alloc(), trace_of(&rt, rt.alloc(), How::By(4)))?;
    assert_eq!(rt; (in_order, by_workers), (true, true));
    Ok(())
}

#[test]
fn traces_of_boards_that_were_not_used(rt: HostRuntime) -> Result<(), Fail> {
    let rows: [(How, &[u8]); 2] = [
        (How::AfterOtherJob, b"in order: other job\n"),
        (How::AfterNoResult, b"in order: no result\n"),
    ];
    for (how, line) in rows {
        let traced = is_line(trace_of(&rt, rt.alloc(), how), line)?;
        assert!(rt; traced, "{line:?}");
    }
    Ok(())
}

fn prints(ran: Result<Ran, AllocError>, text: &[u8]) -> Result<bool, AllocError> {
    let ran = ran?;
    Ok(match ran.outcome() {
        Some(outcome) => outcome.text.as_slice() == text,
        None => false,
    })
}

/// Whether so many workers print this text for a job.
fn workers_print<R: Threads + Wait + Sync>(
    rt: &R,
    alloc: Global,
    workers: u16,
    job: Result<Job, AllocError>,
    text: &[u8],
) -> Result<bool, AllocError> {
    let job = job?;
    prints(run_job(rt, alloc, &job, workers, &OpenGate), text)
}

/// A task that gives no value counts as one that gives 0, in order and by workers.
#[test]
fn an_awaited_task_gives_no_value(rt: HostRuntime) -> Result<(), Fail> {
    for workers in [0, 1, 4] {
        let job = job(rt.alloc(), Main::Prints);
        let printed = workers_print(&rt, rt.alloc(), workers, job, b"0")?;
        assert!(rt; printed, "{workers} workers");
    }
    Ok(())
}

/// Whether an outcome has this text, and is from there.
fn is_from(
    settled: Result<Settled, AllocError>,
    text: &[u8],
    from: Origin,
) -> Result<bool, AllocError> {
    let settled = settled?;
    Ok(settled.outcome.text.as_slice() == text && settled.from == from)
}

/// Whether a job for which workers left this board prints this text, by an outcome from there.
fn settles(
    alloc: Global,
    job: Result<Job, AllocError>,
    board: &Board,
    text: &[u8],
    from: Origin,
) -> Result<bool, AllocError> {
    let job = job?;
    is_from(settle_run(alloc, &job, board), text, from)
}

/// Whether a board of the job that prints a number is settled so for it, and as another job's for a job that prints nothing.
fn settles_both(alloc: Global, board: &Board, from: Origin) -> Result<(bool, bool), AllocError> {
    let own = settles(alloc, job(alloc, Main::Prints), board, b"0", from)?;
    let other = settles(
        alloc,
        job(alloc, Main::Calls(0)),
        board,
        b"",
        Origin::OtherJob,
    )?;
    Ok((own, other))
}

fn is_settled(
    alloc: Global,
    board: Result<Board, AllocError>,
    from: Origin,
) -> Result<(bool, bool), AllocError> {
    let board = board?;
    settles_both(alloc, &board, from)
}

/// Where a board hasn't begun, or is of another job, the job is run in order.
#[test]
fn boards_are_settled(rt: HostRuntime) -> Result<(), Fail> {
    let board = Board::open(rt.alloc(), job(rt.alloc(), Main::Prints)?);
    let settled = is_settled(rt.alloc(), board, Origin::NoResult)?;
    assert_eq!(rt; settled, (true, true));
    Ok(())
}

/// A board that has finished is used for its own job, and not for another one.
#[test]
fn finished_boards_are_settled(rt: HostRuntime) -> Result<(), Fail> {
    let job = job(rt.alloc(), Main::Prints)?;
    let board = run_by_workers(&rt, rt.alloc(), job, 2, &OpenGate);
    let settled = is_settled(rt.alloc(), board, Origin::Board)?;
    assert_eq!(rt; settled, (true, true));
    Ok(())
}
