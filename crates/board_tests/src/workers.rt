//! Workers in threads: on a task that does nothing, on many, and on two that run at one time.

use crate::jobs::{Main, job};
use crate::looks::finished;
use region_tree::OpNumber;
use std::alloc::{AllocError, Global};
use std::sync::Wait;
use std::test::Fail;
use std::thread::Threads;
use task_core::Board;
use worker_gate::{Gate, OpenGate, PairGate};
use worker_run::run_by_workers;

/// Whether a board has finished, where it has a result, and how many steps it made.
fn seen(board: Result<Board, AllocError>) -> Result<(Option<bool>, usize), AllocError> {
    let board = board?;
    Ok((finished(&board), board.journal().len()))
}

/// The same of the board that so many workers leave, which ran a job of so many calls.
fn seen_after<G: Gate, R: Threads + Wait + Sync>(
    rt: &R,
    alloc: Global,
    calls: u32,
    workers: u16,
    gate: &G,
) -> Result<(Option<bool>, usize), AllocError> {
    let job = job(alloc, Main::Calls(calls))?;
    seen(run_by_workers(rt, alloc, job, workers, gate))
}

#[test]
fn one_task_for_many(rt: HostRuntime) -> Result<(), Fail> {
    for workers in [1, 2, 4, 64] {
        let seen = seen_after(&rt, rt.alloc(), 0, workers, &OpenGate)?;
        assert_eq!(rt; seen, (Some(true), 3), "{workers} workers");
    }
    Ok(())
}

#[test]
fn many_tasks(rt: HostRuntime) -> Result<(), Fail> {
    for workers in [1, 2, 4, 64] {
        let seen = seen_after(&rt, rt.alloc(), 50, workers, &OpenGate)?;
        assert_eq!(rt; seen, (Some(true), 303), "{workers} workers");
    }
    Ok(())
}

#[test]
fn two_at_one_time(rt: HostRuntime) -> Result<(), Fail> {
    let gate = PairGate::new(OpNumber(1), OpNumber(2), 100_000_000);
    let seen = seen_after(&rt, rt.alloc(), 2, 2, &gate)?;
    assert_eq!(rt; (seen, gate.met()), ((Some(true), 15), true));
    Ok(())
}

#[test]
fn no_workers(rt: HostRuntime) -> Result<(), Fail> {
    let seen = seen_after(&rt, rt.alloc(), 0, 0, &OpenGate)?;
    assert_eq!(rt; seen, (None, 0));
    Ok(())
}
