//! Claims that are taken back.

ghost use Rattle.std.specs.Prelude.{◌≡◌, true};
ghost use Rattle.board_state.specs.Kept.{is_claimed};
ghost use Rattle.board_terms.specs.Claims.{taken_back};
ghost use Rattle.board_terms.specs.States.{operation_at};

use crate::state::BoardState;
use board_gives::wait_for_nothing;
use board_terms::Activity;
use region_tree::OpNumber;

impl BoardState {
    /// A claim is taken back: the operation waits as before it, and what it waited for is there.
    #[tactic(auto, using(crate::proofs::Claims::claimed_there, crate::proofs::Claims::back_kept))]
    pub fn take_back(&mut self, op: OpNumber)
        requires { is_claimed (operation_at self.old op.0).activity ≡ true }
        ensures { self.new ≡ taken_back self.old op.0 }
    {
        self.operations[op.0 as usize].activity = Activity::Idle;
        wait_for_nothing(&mut self.graph, &self.tree, op);
    }
}
