//! Workers in threads.

ghost use Rattle.std.specs.Prelude.{◌≡◌};
ghost use Rattle.task_hub.specs.Boards.{new_seat};

use std::alloc::{AllocError, Global};
use std::marker::Brand;
use std::sync::Wait;
use std::sync::ledger::{Blank, Ledger};
use std::thread;
use std::thread::Threads;
use task_code::Job;
use task_hub::{Board, Hub, Seat};
use worker_gate::{Gate, work};

/// Runs a job by so many workers, each in a thread of its own where one can be had, and gives the board back when all have
/// ended. It has a result unless each of them ran out of memory.
pub fn run_by_workers<G: Gate, R: Threads + Wait + Sync>(
    rt: &R,
    alloc: Global,
    job: Job,
    workers: u16,
    gate: &G,
) -> Result<Board, AllocError> {
    let parts = u64::from(workers);
    run_counted::<Brand, Brand, G, R>(
        rt,
        alloc,
        Blank::new(parts),
        Blank::new(parts),
        job,
        workers,
        gate,
    )
}

/// The same, with the ledgers of the hub.
fn run_counted<L: Ledger + Send + Sync, O: Ledger + Send + Sync, G: Gate, R: Threads + Wait + Sync>(
    rt: &R,
    alloc: Global,
    steps: Blank,
    overs: Blank,
    job: Job,
    workers: u16,
    gate: &G,
) -> Result<Board, AllocError>
    requires steps { (steps.name ≡ L.name) × ((steps.parts ≡ L.parts) × (L.parts ≡ workers)) }
    requires overs { (overs.name ≡ O.name) × ((overs.parts ≡ O.parts) × (O.parts ≡ workers)) }
{
    let (hub, mut seats) = Hub::<L, O>::open(alloc, steps, overs, job, workers)?;
    let desk = &hub;
    let threads = usize::from(workers).max(1);
    thread::for_each_mut(
        rt,
        seats.as_mut_slice(),
        threads,
        &|_, seat: &mut Seat<L, O>|
            requires { seat.old.seated ≡ new_seat }
        {
            let _ = work(rt, alloc, desk, seat, gate);
        },
    );
    Ok(hub.close(seats))
}
