//! Claims.

ghost use Rattle.std.specs.Prelude.{◌≡◌, ◌<◌, ◌^◌, IfOk, length, suc, true};
ghost use Rattle.logical_map.specs.Fills.{started};
ghost use Rattle.region_tree.specs.Requirements.{part_of};
ghost use Rattle.board_terms.specs.Claims.{claim_made, claim_on, fill_for, requirements_at};
ghost use Rattle.board_terms.specs.Stages.{may_be_claimed};
ghost use Rattle.board_terms.specs.States.{operation_at};

use crate::state::BoardState;
use board_terms::{Activity, Claim, Wait};
use physical_instances::Fill;
use region_tree::{OpNumber, RootId};
use std::alloc::AllocError;

impl BoardState {
    /// The fill of the part that an operation wants, before anything is moved.
    #[tactic(auto, using(crate::proofs::Claims::ready_there))]
    pub fn fill_for(&mut self, op: OpNumber) -> Result<Option<Fill>, AllocError>
        requires ready { may_be_claimed self.old op.0 ≡ true }
        ensures fill { IfOk result (λ f. f
            ≡ fill_for self.old (operation_at self.old op.0) (operation_at self.old op.0).wait) }
        ensures unchanged { self.new ≡ self.old }
    {
        match self.operations[op.0 as usize].wait {
            Wait::Part { root, field } => Ok(Some(self.fill_of(op, root, field)?)),
            _ => Ok(None),
        }
    }

    /// The fill of a part of an operation's needs.
    fn fill_of(&mut self, op: OpNumber, root: RootId, field: u8) -> Result<Fill, AllocError>
        requires { op.0 < length self.old.operations }
        ensures fill { IfOk result (λ f. f ≡ started root.0 field
            (part_of (requirements_at self.old (operation_at self.old op.0)) root.0 field) self.old.map) }
        ensures unchanged { self.new ≡ self.old }
    {
        let needs = &self.operations[op.0 as usize].frame.needs;
        let pieces = needs.part(self.tree.tree(), root, field)?;
        self.contents.start_fill(root, field, pieces)
    }

    /// A seat claims an operation that is ready. Its fill is as `fill_for` gave it.
    #[tactic(auto, using(crate::proofs::Claims::ready_there, crate::proofs::Claims::claim_kept))]
    pub fn claim(&mut self, op: OpNumber, seat: u16, fill: Option<Fill>) -> Claim
        requires ready { may_be_claimed self.old op.0 ≡ true }
        requires fill { fill ≡ fill_for self.old (operation_at self.old op.0) (operation_at self.old op.0).wait }
        requires turns { suc self.old.turns < 2 ^ 64 }
        ensures claim { result ≡ claim_on self.old op.0 seat }
        ensures state { self.new ≡ claim_made self.old op.0 seat }
    {
        let claim = Claim {
            op,
            seat,
            turn: self.turns,
        };
        self.graph.begin(op);
        self.operations[op.0 as usize].activity = Activity::Filling { claim, fill };
        self.turns += 1;
        claim
    }
}
