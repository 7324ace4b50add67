//! Operations by their numbers.

ghost use Rattle.std.specs.Prelude.{◌≡◌, ◌<◌, length, set};
ghost use Rattle.std.specs.Prelude.{OnOk, IfOk};
ghost use Rattle.dependence_graph.specs.Knots.{all_in_progress, has_failed, is_done, knot_at, some_failed, stage_at, with_stage};

use crate::knot::Knot;
use crate::stage::Stage;
use region_tree::OpNumber;
use std::alloc::{AllocError, Global};

/// Where an operation stands, if it was issued.
pub fn stage_of(knots: &[Knot], op: OpNumber) -> Option<Stage>
    ensures { result ≡ stage_at knots.now op.0 }
{
    let place = op.0 as usize;
    if place < knots.len() {
        Some(knots[place].stage())
    } else {
        None
    }
}

pub fn is_done(knots: &[Knot], op: OpNumber) -> bool
    ensures { result ≡ is_done (stage_at knots.now op.0) }
{
    matches!(stage_of(knots, op), Some(Stage::Done))
}

/// Whether an operation has failed or was dropped.
pub fn has_failed(knots: &[Knot], op: OpNumber) -> bool
    ensures { result ≡ has_failed (stage_at knots.now op.0) }
{
    matches!(stage_of(knots, op), Some(Stage::Failed | Stage::Dropped))
}

/// Whether one of these operations has.
pub fn some_failed(knots: &[Knot], ops: &[OpNumber]) -> bool
    ensures { result ≡ some_failed knots.now ops.now }
{
    for op in ops {
        if has_failed(knots, *op) {
            return true;
        }
    }
    false
}

/// Gives an operation a stage.
pub fn enter(knots: &mut Vec<Knot>, place: usize, stage: Stage)
    requires { place < length knots.old.items }
    ensures { knots.new.items ≡ with_stage knots.old.items place stage }
{
    let knot = &mut knots[place];
    knot.enter(stage);
}

/// Gives an operation of a slice a stage.
pub fn set_stage(knots: &mut [Knot], place: usize, stage: Stage)
    requires { place < length knots.old }
    ensures { knots.new ≡ with_stage knots.old place stage }
{
    let knot = &mut knots[place];
    knot.enter(stage);
}

/// All operations that have begun and haven't finished.
pub fn in_progress(alloc: Global, knots: &[Knot]) -> Result<Vec<OpNumber>, AllocError>
    ensures { IfOk result (λ v. v.items ≡ all_in_progress knots.now) }
{
    let mut found = Vec::new(alloc);
    for place in 0..knots.len() {
        if knots[place].stage().is_in_progress() {
            found.push(OpNumber(place as u64))?;
        }
    }
    Ok(found)
}
