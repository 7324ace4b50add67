//! Segments that are given back.

ghost use Rattle.std.specs.Prelude.{◌≡◌, ℕ, IfErr, IfOk, OnErr, OnOk, Some, filter, slice_get};
ghost use Rattle.board_state.specs.Kept.{IsKept};
ghost use Rattle.board_state.specs.Steps.{HasLeft, before_out, ended_in, given_by, parked_in};
ghost use Rattle.board_terms.specs.declared.operation.Ending.TheVariants as ending_term;
ghost use Rattle.board_terms.specs.declared.operation.Wait.TheVariants as wait_term;
ghost use Rattle.board_terms.specs.Gives.{given_after, is_on, waits_for, with_parts};
ghost use Rattle.board_terms.specs.States.{operation_at};
ghost use Rattle.dependence_graph.specs.declared.stage.Waiting.TheVariants as graph_term;
ghost use Rattle.machine_terms.specs.declared.outcome.Yield.TheVariants as yield_term;
ghost use Rattle.machine_terms.specs.Segments.{segment};
ghost use Rattle.task_code.specs.declared.code.Code.{Code as code_term};

use crate::making::copy_parting;
use crate::state::BoardState;
use board_gives::{await_child, end, fail, want};
use board_terms::Ending;
use machine_terms::{After, Before, Made, Ran, Yield};
use plain_values::Shared;
use regent_tree::Fault;
use region_tree::{OpNumber, RootId};
use std::alloc::AllocError;
use task_code::Code;

impl BoardState {
    /// A segment is given back, of the job's code and turns: what it yields is done, and what is over behind it is closed.
    #[tactic(auto, using(crate::proofs::Gives::left_by_run))]
    pub fn give(
        &mut self,
        op: OpNumber,
        code: &Code,
        turns: u64,
        ran: Ran,
    ) -> Result<(), (AllocError, Ran)>
        requires out { before_out (operation_at self.old op.0).activity ≡ Some ran }
        ensures given { OnOk result (self.new ≡ given_after code.now turns self.old op.0 (segment ran)) }
        ensures unchanged { OnErr result (self.new ≡ self.old) }
        ensures handed { IfErr result (λ e. e.1 ≡ ran) }
    {
        let (before, mut after) = parts_of(ran)?;
        match self.give_left(op, code, turns, &mut after) {
            Ok(()) => Ok(()),
            Err(failed) => Err((failed, Ran::new(before, after))),
        }
    }

    /// What a segment left is given back: what it yields is done, and what is over behind it is closed.
    fn give_left(
        &mut self,
        op: OpNumber,
        code: &Code,
        turns: u64,
        after: &mut After,
    ) -> Result<(), AllocError>
        requires { HasLeft (operation_at self.old op.0).activity after.old }
        ensures given { OnOk result (self.new ≡ given_after code.now turns self.old op.0 after.old) }
        ensures unchanged { OnErr result (self.new ≡ self.old) }
        ensures handed { OnErr result (after.new ≡ after.old) }
    {
        self.give_yielded(op, code, turns, after)?;
        self.follow(op);
        Ok(())
    }

    /// What a segment yields is done.
    #[tactic(auto, using(crate::proofs::CallsGiven::calls_there))]
    fn give_yielded(
        &mut self,
        op: OpNumber,
        code: &Code,
        turns: u64,
        after: &mut After,
    ) -> Result<(), AllocError>
        requires { HasLeft (operation_at self.old op.0).activity after.old }
        ensures given { OnOk result (self.new ≡ given_by code.now turns self.old op.0 after.old) }
        ensures unchanged { OnErr result (self.new ≡ self.old) }
        ensures handed { OnErr result (after.new ≡ after.old) }
    {
        match &after.ends {
            Yield::Calls(_) => self.give_calls(op, code, turns, after),
            Yield::Want { root, field } => self.give_want(op, *root, *field, after),
            Yield::Await(place) => self.give_await(op, *place, after),
            Yield::Make(Made::Root { space, fields }) => {
                self.give_root(op, code, *space, *fields, after)
            }
            Yield::Make(
                Made::Partition {
                    region,
                    sets,
                    disjoint,
                },
            ) => {
                let (region, sets) = copy_parting(
                    *self.operations.allocator(),
                    region,
                    sets.as_slice(),
                )?;
                self.give_partition(op, region, sets, *disjoint, after)
            }
            Yield::End(value) => self.give_end(op, *value, after),
            Yield::Fault(fault) => self.give_fault(op, *fault, after),
            Yield::MachineFault => self.give_broken(op, after),
        }
    }

    /// A segment that ended at a fault is given back.
    pub fn give_fault(
        &mut self,
        op: OpNumber,
        fault: Fault,
        after: &mut After,
    ) -> Result<(), AllocError>
        requires left { HasLeft (operation_at self.old op.0).activity after.old }
        requires ends { after.old.ends ≡ yield_term.Fault fault }
        ensures given { OnOk result ((code : code_term) (turns : ℕ) → self.new ≡ given_by code turns self.old op.0 after.old) }
        ensures unchanged { OnErr result (self.new ≡ self.old) }
        ensures handed { OnErr result (after.new ≡ after.old) }
    {
        self.give_failed(op, Ending::Fault(fault), after)
    }

    /// A segment that no compiled program has is given back: the operation is broken.
    pub fn give_broken(&mut self, op: OpNumber, after: &mut After) -> Result<(), AllocError>
        requires left { HasLeft (operation_at self.old op.0).activity after.old }
        requires ends { after.old.ends ≡ yield_term.MachineFault }
        ensures given { OnOk result ((code : code_term) (turns : ℕ) → self.new ≡ given_by code turns self.old op.0 after.old) }
        ensures unchanged { OnErr result (self.new ≡ self.old) }
        ensures handed { OnErr result (after.new ≡ after.old) }
    {
        self.give_failed(op, Ending::Broken, after)
    }

    /// A segment that came to the end of its task is given back: its parts go back.
    pub fn give_end(
        &mut self,
        op: OpNumber,
        value: Option<i64>,
        after: &mut After,
    ) -> Result<(), AllocError>
        requires left { HasLeft (operation_at self.old op.0).activity after.old }
        requires ends { after.old.ends ≡ yield_term.End value }
        ensures given { OnOk result ((code : code_term) (turns : ℕ) → self.new ≡ given_by code turns self.old op.0 after.old) }
        ensures unchanged { OnErr result (self.new ≡ self.old) }
        ensures handed { OnErr result (after.new ≡ after.old) }
    {
        self.give_ended(op, value, after)
    }

    /// A segment that wants a part of a root's field is given back.
    pub fn give_want(
        &mut self,
        op: OpNumber,
        root: RootId,
        field: u8,
        after: &mut After,
    ) -> Result<(), AllocError>
        requires left { HasLeft (operation_at self.old op.0).activity after.old }
        requires ends { after.old.ends ≡ yield_term.Want root field }
        ensures given { OnOk result ((code : code_term) (turns : ℕ) → self.new ≡ given_by code turns self.old op.0 after.old) }
        ensures unchanged { OnErr result (self.new ≡ self.old) }
        ensures handed { OnErr result (after.new ≡ after.old) }
    {
        self.give_wanting(op, root, field, after)
    }

    /// A segment that awaits a child, by its place, is given back.
    pub fn give_await(
        &mut self,
        op: OpNumber,
        place: u64,
        after: &mut After,
    ) -> Result<(), AllocError>
        requires left { HasLeft (operation_at self.old op.0).activity after.old }
        requires ends { after.old.ends ≡ yield_term.Await place }
        ensures given { OnOk result ((code : code_term) (turns : ℕ) → self.new ≡ given_by code turns self.old op.0 after.old) }
        ensures unchanged { OnErr result (self.new ≡ self.old) }
        ensures handed { OnErr result (after.new ≡ after.old) }
    {
        self.give_awaiting(op, place, after)
    }

    /// The own work of an operation that is out has ended at a fault, or broken.
    #[tactic(auto, using(crate::proofs::Gives::left_there, crate::proofs::Gives::left_begun))]
    fn give_failed(
        &mut self,
        op: OpNumber,
        ending: Ending,
        after: &mut After,
    ) -> Result<(), AllocError>
        requires { HasLeft (operation_at self.old op.0).activity after.old }
        ensures ended { OnOk result (self.new ≡ ended_in self.old op.0 after.old ending self.old.map) }
        ensures unchanged { OnErr result (self.new ≡ self.old) }
        ensures handed { OnErr result (after.new ≡ after.old) }
    {
        let alloc = *self.operations.allocator();
        fail(alloc, &mut self.operations[op.0 as usize], ending, after)
    }

    /// The own work of an operation that is out has come to its end, and its parts go back.
    #[tactic(auto, using(crate::proofs::Gives::left_there, crate::proofs::Gives::left_begun))]
    fn give_ended(
        &mut self,
        op: OpNumber,
        value: Option<i64>,
        after: &mut After,
    ) -> Result<(), AllocError>
        requires { HasLeft (operation_at self.old op.0).activity after.old }
        ensures ended { OnOk result (self.new ≡ ended_in self.old op.0 after.old (ending_term.Value value)
            (with_parts after.old.parts self.old.map)) }
        ensures unchanged { OnErr result (self.new ≡ self.old) }
        ensures handed { OnErr result (after.new ≡ after.old) }
    {
        let alloc = *self.operations.allocator();
        let operation = &mut self.operations[op.0 as usize];
        end(alloc, &mut self.contents, operation, value, after)
    }

    /// An operation that is out wants a part of a root's field.
    #[tactic(auto, using(crate::proofs::Gives::left_there, crate::proofs::Gives::left_begun))]
    fn give_wanting(
        &mut self,
        op: OpNumber,
        root: RootId,
        field: u8,
        after: &mut After,
    ) -> Result<(), AllocError>
        requires { HasLeft (operation_at self.old op.0).activity after.old }
        ensures kept { IsKept self.old }
        ensures parked { OnOk result (self.new ≡ parked_in self.old op.0 after.old (wait_term.Part root field)
            (graph_term.Part (record { items = filter (is_on root.0 field) (operation_at self.old op.0).frame.needs.items }))) }
        ensures unchanged { OnErr result (self.new ≡ self.old) }
        ensures handed { OnErr result (after.new ≡ after.old) }
    {
        let alloc = *self.operations.allocator();
        let operation = &mut self.operations[op.0 as usize];
        want(
            alloc,
            &self.tree,
            &mut self.graph,
            operation,
            op,
            root,
            field,
            after,
        )
    }

    /// An operation that is out awaits a child, by its place.
    #[tactic(auto, using(crate::proofs::Gives::left_there, crate::proofs::Gives::left_begun))]
    fn give_awaiting(
        &mut self,
        op: OpNumber,
        place: u64,
        after: &mut After,
    ) -> Result<(), AllocError>
        requires { HasLeft (operation_at self.old op.0).activity after.old }
        ensures parked { OnOk result (self.new ≡ parked_in self.old op.0 after.old (wait_term.Child place)
            (waits_for (slice_get (operation_at self.old op.0).children place))) }
        ensures unchanged { OnErr result (self.new ≡ self.old) }
        ensures handed { OnErr result (after.new ≡ after.old) }
    {
        let alloc = *self.operations.allocator();
        let operation = &mut self.operations[op.0 as usize];
        await_child(
            alloc,
            &self.tree,
            &mut self.graph,
            operation,
            op,
            place,
            after,
        )
    }
}

/// What a segment was run from, and what it left.
fn parts_of(ran: Ran) -> Result<(Shared<Before>, After), (AllocError, Ran)>
    ensures before { IfOk result (λ p. p.0 ≡ ran) }
    ensures after { IfOk result (λ p. p.1 ≡ segment ran) }
    ensures handed { IfErr result (λ e. e.1 ≡ ran) }
{
    match ran.before().share() {
        Ok(before) => Ok((before, ran.into_after())),
        Err(failed) => Err((failed, ran)),
    }
}
