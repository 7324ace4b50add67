//! The loop of a worker.

ghost use Rattle.std.specs.Prelude.{◌≡◌, ◌<◌, ◌-◌, ◌^◌, IfOk, OnErr, OnOk, false, true};
ghost use Rattle.worker_gate.specs.Workers.{IsAsBefore, IsWithoutClaim};

use crate::gate::Gate;
use machine_terms::{Before, Ran};
use plain_values::Shared;
use region_tree::OpNumber;
use std::alloc::{AllocError, Global};
use std::sync::Wait;
use task_core::{Claim, Copied, Desk, Given, Work};
use task_machine::run_segment;

/// Works at a desk until all is over: claims, copies, runs through the gate, and gives. Where a claim is gone, or its run is
/// a stranger's, it takes the claim back and claims anew; where memory runs out, it takes the claim back and ends. So
/// nothing that it claimed is out when it ends.
pub fn work<D: Desk, G: Gate, R: Wait>(
    rt: &R,
    alloc: Global,
    desk: &D,
    seat: &mut D::Seat,
    gate: &G,
) -> Result<(), AllocError>
    ensures over { OnOk result ((D.seated seat.new).overs ≡ 1) }
    ensures untold { OnErr result ((D.seated seat.new).overs ≡ (D.seated seat.old).overs) }
    ensures claims { (D.seated seat.old).claims < 2 ^ 64 - 1 → (D.seated seat.new).claims ≡ (D.seated seat.old).claims }
{
    for _ in rt.forever() {
        match desk.claim(rt, seat)? {
            Work::Run(claim) => serve(rt, alloc, desk, seat, gate, claim)?,
            Work::Over => return Ok(()),
        }
    }
    unreachable!()
}

/// Runs a claim's segment and gives it back, or takes the claim back.
fn serve<D: Desk, G: Gate, R: Wait>(
    rt: &R,
    alloc: Global,
    desk: &D,
    seat: &mut D::Seat,
    gate: &G,
    claim: Claim,
) -> Result<(), AllocError>
    ensures { IsWithoutClaim (D.seated seat.old) (D.seated seat.new) }
{
    let taken = attempt(rt, alloc, desk, seat, gate, claim);
    if !matches!(taken, Ok(true)) {
        desk.take_back(rt, seat, claim);
    }
    taken?;
    Ok(())
}

/// Runs a claim's segment and gives it back; whether the run was taken.
fn attempt<D: Desk, G: Gate, R: Wait>(
    rt: &R,
    alloc: Global,
    desk: &D,
    seat: &mut D::Seat,
    gate: &G,
    claim: Claim,
) -> Result<bool, AllocError>
    ensures taken { IfOk result (λ t. t ≡ true → IsWithoutClaim (D.seated seat.old) (D.seated seat.new)) }
    ensures gone { IfOk result (λ t. t ≡ false → IsAsBefore (D.seated seat.old) (D.seated seat.new)) }
    ensures failed { OnErr result (IsAsBefore (D.seated seat.old) (D.seated seat.new)) }
{
    let Some(before) = copied_out(rt, desk, seat, claim)? else {
        return Ok(false);
    };
    let ran = run_through(alloc, gate, claim.op, before)?;
    match desk.give(rt, seat, claim, ran) {
        Ok(Given::Taken) => Ok(true),
        Ok(Given::Stranger(_, _)) => Ok(false),
        Err((failed, _)) => Err(failed),
    }
}

/// Copies until the claim's segment may be run, and gives what it is run from; nothing where the claim is gone.
fn copied_out<D: Desk, R: Wait>(
    rt: &R,
    desk: &D,
    seat: &mut D::Seat,
    claim: Claim,
) -> Result<Option<Shared<Before>>, AllocError>
    ensures { IsAsBefore (D.seated seat.old) (D.seated seat.new) }
{
    for _ in rt.forever() {
        match desk.copy(rt, seat, claim)? {
            Copied::More => (),
            Copied::Start(before) => return Ok(Some(before)),
            Copied::Gone => return Ok(None),
        }
    }
    unreachable!()
}

/// Runs a segment between entering and leaving a gate.
fn run_through<G: Gate>(
    alloc: Global,
    gate: &G,
    op: OpNumber,
    before: Shared<Before>,
) -> Result<Ran, AllocError>
    ensures { IfOk result (λ ran. ran ≡ before) }
{
    gate.enter(op);
    let ran = run_segment(alloc, before);
    gate.leave(op);
    ran
}
