//! Segments that end in calls and are given back.

ghost use Rattle.std.specs.Prelude.{◌≡◌, OnErr, OnOk};
ghost use Rattle.board_calls.specs.Calls.{calls_in};
ghost use Rattle.board_state.specs.Steps.{HasLeft, called_with, given_by};
ghost use Rattle.board_terms.specs.States.{operation_at};
ghost use Rattle.machine_terms.specs.declared.outcome.Yield.TheVariants as yield_term;

use crate::state::BoardState;
use board_calls::give_calls;
use machine_terms::After;
use region_tree::OpNumber;
use std::alloc::AllocError;
use task_code::Code;

impl BoardState {
    /// A segment that ended in calls is given back: they are issued, as far as they may be, and its parts go back.
    pub fn give_calls(
        &mut self,
        op: OpNumber,
        code: &Code,
        turns: u64,
        after: &mut After,
    ) -> Result<(), AllocError>
        requires left { HasLeft (operation_at self.old op.0).activity after.old }
        requires ends { after.old.ends ≡ yield_term.Calls (calls_in after.old.ends) }
        ensures given { OnOk result (self.new ≡ given_by code.now turns self.old op.0 after.old) }
        ensures unchanged { OnErr result (self.new ≡ self.old) }
        ensures handed { OnErr result (after.new ≡ after.old) }
    {
        self.give_calling(op, code, turns, after)
    }

    /// The calls of an operation that is out are issued, as far as they may be, and its parts go back.
    #[tactic(auto, using(crate::proofs::Gives::left_there, crate::proofs::Gives::left_begun))]
    fn give_calling(
        &mut self,
        op: OpNumber,
        code: &Code,
        turns: u64,
        after: &mut After,
    ) -> Result<(), AllocError>
        requires { HasLeft (operation_at self.old op.0).activity after.old }
        ensures called { OnOk result (self.new ≡ called_with code.now turns self.old op.0 after.old) }
        ensures unchanged { OnErr result (self.new ≡ self.old) }
        ensures handed { OnErr result (after.new ≡ after.old) }
    {
        let alloc = *self.operations.allocator();
        give_calls(
            alloc,
            code,
            turns,
            &self.tree,
            &mut self.contents,
            &mut self.graph,
            &mut self.operations,
            op,
            after,
        )
    }
}
