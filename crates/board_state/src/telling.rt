//! What a board's state tells.

ghost use Rattle.std.specs.Prelude.{◌≡◌, ◌<◌, ◌↔◌, IfOk, IfSome, None, ℕ, false, length};
ghost use Rattle.board_state.specs.Kept.{IsKept};
ghost use Rattle.board_state.specs.Steps.{is_filled_by, is_out_by, same_claim};
ghost use Rattle.board_terms.specs.Stages.{all_in_progress, is_in_progress, is_over, may_be_claimed, stage_at};
ghost use Rattle.board_terms.specs.States.{operation_at};
ghost use Rattle.dependence_graph.specs.Issues.{IsFirstReady};

use crate::stages::{is_in_progress, is_over};
use crate::state::BoardState;
use board_terms::{Activity, Claim};
use region_tree::OpNumber;
use std::alloc::AllocError;

impl BoardState {
    /// Whether an operation waits, and what it waits for is there.
    pub fn is_ready(&self, op: OpNumber) -> bool
        ensures ready { result ≡ may_be_claimed self.now op.0 }
        ensures kept { IsKept self.now }
    {
        self.graph.ready(op)
    }

    /// The least operation that is ready.
    pub fn first_ready(&self) -> Option<OpNumber>
        ensures some { IfSome result (λ o. IsFirstReady self.now.waits.knots o.0) }
        ensures none { (result ≡ None) ↔ ((k : ℕ) → may_be_claimed self.now k ≡ false) }
    {
        self.graph.first_ready()
    }

    /// Whether an operation is being filled under a claim.
    pub fn is_filled_by(&self, claim: &Claim) -> bool
        ensures filled { result ≡ is_filled_by claim.now (operation_at self.now claim.now.op.0).activity }
        ensures kept { IsKept self.now }
    {
        match self.operations.get(claim.op.0 as usize) {
            Some(operation) => is_filled_by(claim, &operation.activity),
            None => false,
        }
    }

    /// Whether an operation is out under a claim.
    pub fn is_out_by(&self, claim: &Claim) -> bool
        ensures out { result ≡ is_out_by claim.now (operation_at self.now claim.now.op.0).activity }
        ensures kept { IsKept self.now }
    {
        match self.operations.get(claim.op.0 as usize) {
            Some(operation) => is_out_by(claim, &operation.activity),
            None => false,
        }
    }

    /// Whether an operation has ended, has failed or was dropped, or was never issued.
    pub fn is_over(&self, op: OpNumber) -> bool
        ensures { result ≡ is_over (stage_at self.now op.0) }
    {
        match self.graph.stage(op) {
            Some(stage) => is_over(stage),
            None => true,
        }
    }

    /// How many claims there were.
    pub fn turns(&self) -> u64
        ensures { result ≡ self.now.turns }
    {
        self.turns
    }

    /// All operations that have begun and aren't over.
    pub fn in_progress(&self) -> Result<Vec<OpNumber>, AllocError>
        ensures { IfOk result (λ v. v.items ≡ all_in_progress self.now) }
    {
        let mut found = Vec::new(*self.operations.allocator());
        for place in 0..self.operations.len() {
            if self.is_in_progress(place) {
                found.push(OpNumber(place as u64))?;
            }
        }
        Ok(found)
    }

    fn is_in_progress(&self, place: usize) -> bool
        requires { place < length self.now.operations }
        ensures { result ≡ is_in_progress (stage_at self.now place) }
    {
        match self.graph.stage(OpNumber(place as u64)) {
            Some(stage) => is_in_progress(stage, &self.operations[place].wait),
            None => false,
        }
    }
}

fn is_filled_by(claim: &Claim, activity: &Activity) -> bool
    ensures { result ≡ is_filled_by claim.now activity.now }
{
    match activity {
        Activity::Filling { claim: other, .. } => is_same_claim(claim, other),
        _ => false,
    }
}

fn is_out_by(claim: &Claim, activity: &Activity) -> bool
    ensures { result ≡ is_out_by claim.now activity.now }
{
    match activity {
        Activity::Out { claim: other, .. } => is_same_claim(claim, other),
        _ => false,
    }
}

/// Whether two claims are one.
pub fn is_same_claim(claim: &Claim, other: &Claim) -> bool
    ensures { result ≡ same_claim claim.now other.now }
{
    claim.op.0 == other.op.0 && claim.seat == other.seat && claim.turn == other.turn
}
