//! What a board's state is made of, as far as outcomes are told from it.

ghost use Rattle.std.specs.Prelude.{◌≡◌, get_or};
ghost use Rattle.std.specs.Option.{option_copied};
ghost use Rattle.board_state.specs.Kept.{IsKept};
ghost use Rattle.board_state.specs.Steps.{before_by};
ghost use Rattle.board_terms.specs.Stages.{has_finished};
ghost use Rattle.board_terms.specs.States.{no_extent, operation_at};
ghost use Rattle.physical_instances.specs.Kept.{map_of};

use crate::state::BoardState;
use crate::telling::is_same_claim;
use board_terms::{Activity, Claim, Extent, Operation};
use machine_terms::Before;
use physical_instances::Contents;
use plain_values::Shared;
use region_tree::{OpNumber, RootId};

impl BoardState {
    /// The operations, in order of issue.
    pub fn operations(&self) -> &[Operation]
        ensures { result.now ≡ self.now.operations }
    {
        self.operations.as_slice()
    }

    /// What the live roots hold.
    pub fn contents(&self) -> &Contents
        ensures { map_of result.now ≡ self.now.map }
    {
        &self.contents
    }

    /// The extent of a root; of one that wasn't made the first field space, and no points.
    pub fn extent(&self, root: RootId) -> Extent
        ensures { result ≡ get_or self.now.roots root.0 no_extent }
    {
        match self.roots.get(root.0 as usize) {
            Some(extent) => *extent,
            None => Extent { space: 0, count: 0 },
        }
    }

    /// What the segment of an operation is run from that is out under a claim.
    pub fn before_by(&self, claim: &Claim) -> Option<&Shared<Before>>
        ensures before { option_copied result ≡ before_by claim.now (operation_at self.now claim.now.op.0).activity }
        ensures kept { IsKept self.now }
    {
        match self.operations.get(claim.op.0 as usize) {
            Some(operation) => before_by(claim, &operation.activity),
            None => None,
        }
    }

    /// Whether no operation is left that isn't over.
    pub fn has_finished(&self) -> bool
        ensures { result ≡ has_finished self.now }
    {
        for place in 0..self.operations.len() {
            if !self.is_over(OpNumber(place as u64)) {
                return false;
            }
        }
        true
    }
}

fn before_by<'a>(claim: &Claim, activity: &'a Activity) -> Option<&'a Shared<Before>>
    ensures { option_copied result ≡ before_by claim.now activity.now }
{
    match activity {
        Activity::Out {
            claim: other,
            before,
        } if is_same_claim(claim, other) => Some(before),
        _ => None,
    }
}
