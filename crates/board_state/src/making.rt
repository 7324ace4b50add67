//! Segments that are given back with a root or a partition to make.

ghost use Rattle.std.specs.Prelude.{◌≡◌, ℕ, IfOk, OnErr, OnOk};
ghost use Rattle.board_state.specs.Steps.{HasLeft, given_by, parting_in, rooted_in};
ghost use Rattle.board_terms.specs.States.{operation_at};
ghost use Rattle.machine_terms.specs.declared.outcome.Made.TheVariants as made_term;
ghost use Rattle.machine_terms.specs.declared.outcome.Yield.TheVariants as yield_term;
ghost use Rattle.task_code.specs.declared.code.Code.{Code as code_term};

use crate::state::BoardState;
use board_gives::{make_partition, make_root, wait_for_nothing};
use index_spaces::Ispace;
use machine_terms::{After, RegionValue};
use point_sets::PointSet;
use region_tree::OpNumber;
use std::alloc::{AllocError, Global};
use task_code::Code;

impl BoardState {
    /// A segment that makes a root is given back.
    pub fn give_root(
        &mut self,
        op: OpNumber,
        code: &Code,
        space: Ispace,
        fields: u32,
        after: &mut After,
    ) -> Result<(), AllocError>
        requires left { HasLeft (operation_at self.old op.0).activity after.old }
        requires ends { after.old.ends ≡ yield_term.Make (made_term.Root space fields) }
        ensures given { OnOk result ((turns : ℕ) → self.new ≡ given_by code.now turns self.old op.0 after.old) }
        ensures unchanged { OnErr result (self.new ≡ self.old) }
        ensures handed { OnErr result (after.new ≡ after.old) }
    {
        self.give_rooted(op, code, space, fields, after)
    }

    /// A segment that makes a partition is given back. Where it may not be made, the operation is broken.
    pub fn give_partition(
        &mut self,
        op: OpNumber,
        region: RegionValue,
        sets: Vec<PointSet>,
        disjoint: bool,
        after: &mut After,
    ) -> Result<(), AllocError>
        requires left { HasLeft (operation_at self.old op.0).activity after.old }
        requires ends { after.old.ends ≡ yield_term.Make (made_term.Partition region sets.items disjoint) }
        ensures given { OnOk result ((code : code_term) (turns : ℕ) → self.new ≡ given_by code turns self.old op.0 after.old) }
        ensures unchanged { OnErr result (self.new ≡ self.old) }
        ensures handed { OnErr result (after.new ≡ after.old) }
    {
        self.give_parting(op, &region, sets, disjoint, after)
    }

    /// An operation that is out makes a root, and waits for nothing.
    #[tactic(auto, using(crate::proofs::Gives::left_there, crate::proofs::Gives::left_begun))]
    fn give_rooted(
        &mut self,
        op: OpNumber,
        code: &Code,
        space: Ispace,
        fields: u32,
        after: &mut After,
    ) -> Result<(), AllocError>
        requires { HasLeft (operation_at self.old op.0).activity after.old }
        ensures made { OnOk result (self.new ≡ rooted_in code.now space fields self.old op.0 after.old) }
        ensures unchanged { OnErr result (self.new ≡ self.old) }
        ensures handed { OnErr result (after.new ≡ after.old) }
    {
        let alloc = *self.operations.allocator();
        let operation = &mut self.operations[op.0 as usize];
        make_root(
            alloc,
            code,
            &mut self.tree,
            &mut self.roots,
            &mut self.contents,
            operation,
            space,
            fields,
            after,
        )?;
        wait_for_nothing(&mut self.graph, &self.tree, op);
        Ok(())
    }

    /// An operation that is out makes a partition, and waits for nothing, or is broken.
    #[tactic(auto, using(crate::proofs::Gives::left_there, crate::proofs::Gives::left_begun))]
    fn give_parting(
        &mut self,
        op: OpNumber,
        region: &RegionValue,
        sets: Vec<PointSet>,
        disjoint: bool,
        after: &mut After,
    ) -> Result<(), AllocError>
        requires { HasLeft (operation_at self.old op.0).activity after.old }
        ensures made { OnOk result (self.new ≡ parting_in region.now sets.items disjoint self.old op.0 after.old) }
        ensures unchanged { OnErr result (self.new ≡ self.old) }
        ensures handed { OnErr result (after.new ≡ after.old) }
    {
        let alloc = *self.operations.allocator();
        let operation = &mut self.operations[op.0 as usize];
        if make_partition(
            alloc,
            &mut self.tree,
            operation,
            region,
            sets,
            disjoint,
            after,
        )? {
            wait_for_nothing(&mut self.graph, &self.tree, op);
        }
        Ok(())
    }
}

/// A region and the sets of its partition once more.
pub fn copy_parting(
    alloc: Global,
    region: &RegionValue,
    sets: &[PointSet],
) -> Result<(RegionValue, Vec<PointSet>), AllocError>
    ensures region { IfOk result (λ p. p.0 ≡ region.now) }
    ensures sets { IfOk result (λ p. p.1.items ≡ sets.now) }
{
    let mut copies = Vec::new(alloc);
    for set in sets {
        copies.push(set.copy()?)?;
    }
    Ok((region.copy()?, copies))
}
