//! Boards that are driven to their end.

use crate::order::Order;
use board_terms::Claim;
use machine_terms::{Before, Ran};
use plain_values::Shared;
use std::alloc::{AllocError, Global};
use task_core::{Board, Copied, Given};
use task_machine::run_segment;

/// The most gives of a board.
const GIVES: u32 = 10_000;

/// The most copies of a claim.
const COPIES: u32 = 2_000;

/// A claim that is out, with what its segment is run from.
#[derive(Drop)]
pub struct Held {
    pub claim: Claim,
    pub before: Shared<Before>,
}

/// Copies the part of a claim out.
fn copied_out(board: &mut Board, claim: Claim) -> Result<Option<Held>, AllocError> {
    for _ in 0..COPIES {
        match board.copy(claim)? {
            Copied::More => (),
            Copied::Start(before) => return Ok(Some(Held { claim, before })),
            Copied::Gone => return Ok(None),
        }
    }
    Ok(None)
}

/// Claims what is ready and copies its part out.
pub fn take(board: &mut Board, seat: u16) -> Result<Option<Held>, AllocError> {
    match board.claim(seat)? {
        Some(claim) => copied_out(board, claim),
        None => Ok(None),
    }
}

/// Claims what is ready; what the order takes back is claimed anew.
fn take_by(board: &mut Board, order: Order, seat: u16) -> Result<Option<Held>, AllocError> {
    let Some(held) = take(board, seat)? else {
        return Ok(None);
    };
    if order.takes_back(held.claim.turn) && board.take_back(held.claim) {
        return take(board, seat);
    }
    Ok(Some(held))
}

/// Claims as much as the order has out at once.
fn fill(board: &mut Board, order: Order, held: &mut Vec<Held>) -> Result<(), AllocError> {
    for seat in 0..64_u16 {
        if held.len() >= order.most_claims() {
            break;
        }
        match take_by(board, order, seat)? {
            Some(one) => held.push(one)?,
            None => break,
        }
    }
    Ok(())
}

/// Runs the segment of a claim.
pub fn run(alloc: Global, held: &Held) -> Result<Ran, AllocError> {
    run_segment(alloc, held.before.share()?)
}

/// Runs the segment of a claim and gives it back; whether it was taken.
pub fn give(alloc: Global, board: &mut Board, held: &Held) -> Result<bool, AllocError> {
    match board.give(held.claim, run(alloc, held)?) {
        Ok(given) => Ok(matches!(given, Given::Taken)),
        Err((failed, _)) => Err(failed),
    }
}

/// Claims as much as the order has out, and gives what is next; whether a run was taken.
fn go_on(
    alloc: Global,
    board: &mut Board,
    order: Order,
    held: &mut Vec<Held>,
) -> Result<bool, AllocError> {
    fill(board, order, held)?;
    let next = order.next(held.as_slice());
    if next >= held.len() {
        return Ok(false);
    }
    let one = held.remove(next);
    give(alloc, board, &one)
}

/// Drives a board on which these claims are out.
fn drive_on(
    alloc: Global,
    board: &mut Board,
    order: Order,
    held: &mut Vec<Held>,
) -> Result<bool, AllocError> {
    for _ in 0..GIVES {
        if board.result().is_some() {
            return Ok(true);
        }
        if !go_on(alloc, board, order, held)? {
            return Ok(false);
        }
    }
    Ok(false)
}

/// Drives a board until it has a result; whether it has one, and each run was taken.
pub fn drive(alloc: Global, board: &mut Board, order: Order) -> Result<bool, AllocError> {
    let mut held = Vec::new(alloc);
    drive_on(alloc, board, order, &mut held)
}
