//! Where operations stand, by what the graph says of them.

ghost use Rattle.std.specs.Prelude.{◌≡◌, Some};
ghost use Rattle.board_state.specs.Kept.{is_stopped_at};
ghost use Rattle.board_terms.specs.Stages.{is_closing, is_in_progress, is_over, stage_of};
ghost use Rattle.board_terms.specs.declared.operation.Activity.{Activity as activity};
ghost use Rattle.board_terms.specs.declared.operation.Wait.{Wait as wait};

use board_terms::{Activity, Wait};
use dependence_graph::Stage;

/// Whether an operation in a stage, which waits for this, has begun and isn't over.
pub fn is_in_progress(stage: Stage, on: &Wait) -> bool
    ensures { (a : activity) → result ≡ is_in_progress (stage_of stage on.now a) }
{
    match stage {
        Stage::Begun | Stage::Stopped => true,
        Stage::Parked => !matches!(on, Wait::Beginning),
        Stage::Waiting | Stage::Done | Stage::Failed | Stage::Dropped => false,
    }
}

/// Whether an operation in a stage is over.
pub fn is_over(stage: Stage) -> bool
    ensures { (w : wait) (a : activity) → result ≡ is_over (stage_of stage w a) }
{
    matches!(stage, Stage::Done | Stage::Failed | Stage::Dropped)
}

/// Whether the own work of an operation in a stage, which does this, has ended.
pub fn is_closing(stage: Stage, doing: &Activity) -> bool
    ensures { (w : wait) → result ≡ is_closing (stage_of stage w doing.now) }
{
    match stage {
        Stage::Begun => !matches!(doing, Activity::Filling { .. } | Activity::Out { .. }),
        Stage::Stopped => true,
        _ => false,
    }
}

/// Whether an operation is stopped.
pub fn is_stopped(stage: Option<Stage>) -> bool
    ensures { result ≡ is_stopped_at stage }
{
    matches!(stage, Some(Stage::Stopped))
}
