//! How many steps claims may still make.

ghost use Rattle.std.specs.Prelude.{◌≡◌, suc};
ghost use Rattle.board_state.specs.Owed.{copies_for, copies_left, owed_of};
ghost use Rattle.board_terms.specs.States.{operation_at};

use crate::state::BoardState;
use board_terms::Activity;
use physical_instances::Fill;
use region_tree::OpNumber;

impl BoardState {
    /// How many steps more the claim on an operation may make.
    pub fn owed_at(&self, op: OpNumber) -> usize
        ensures { result ≡ owed_of (operation_at self.now op.0).activity }
    {
        match self.operations.get(op.0 as usize) {
            Some(operation) => owed_of(&operation.activity),
            None => 0,
        }
    }
}

fn owed_of(activity: &Activity) -> usize
    ensures { result ≡ owed_of activity.now }
{
    match activity {
        Activity::Filling { fill, .. } => owed_for(fill),
        Activity::Out { .. } => 1,
        Activity::Idle | Activity::Closing(_) => 0,
    }
}

/// How many steps more a claim may make that has this fill.
pub fn owed_for(fill: &Option<Fill>) -> usize
    ensures { result ≡ suc (copies_left fill.now) }
{
    match fill {
        Some(fill) => copies_for(fill.left()) + 1,
        None => 2,
    }
}

/// How many copies move so many elements.
fn copies_for(elements: usize) -> usize
    ensures { result ≡ copies_for elements }
{
    elements.saturating_sub(1) / 4096 + 1
}
