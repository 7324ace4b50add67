//! Operations that are found one after the other.

ghost use Rattle.std.specs.Prelude.{◌≡◌, ◌≤◌, length};
ghost use Rattle.region_walk.specs.Found.{AreOrdered, IsPlaceFor, stands_at};

use region_tree::OpNumber;
use std::alloc::{AllocError, Global};
use std::marker::Model;

/// Operations in rising order, each once, and how many users of operations that have ended were passed on the way.
#[derive(Drop)]
pub struct Found {
    ops: Vec<OpNumber>,
    passed: usize,
}

impl Model for Found {
    ghost use Rattle.std.specs.Prelude.{List};
    ghost use Rattle.region_tree.specs.declared.tree.OpNumber.{OpNumber};
    ghost use Rattle.region_walk.specs.Found.{AreOrdered};

    ghost Value = { List OpNumber };

    ghost view = { λ f. f.ops.items };

    ghost invariant = { λ f. AreOrdered f.ops.items };
}

impl Found {
    ghost use Rattle.std.specs.Prelude.{◌≡◌, [], OnOk};
    ghost use Rattle.region_walk.specs.Found.{put};

    pub fn new(alloc: Global) -> Found
        ensures { result ≡ [] }
    {
        Found {
            ops: Vec::new(alloc),
            passed: 0,
        }
    }

    /// A user of an operation that has ended is passed.
    pub fn pass(&mut self)
        ensures { self.new ≡ self.old }
    {
        self.passed = self.passed.saturating_add(1);
    }

    /// How many were passed.
    pub fn passed(&self) -> usize {
        self.passed
    }

    /// Puts an operation in its place, unless it is there.
    pub fn put(&mut self, op: OpNumber) -> Result<(), AllocError>
        ensures { OnOk result (self.new ≡ put op self.old) }
    {
        let ops = self.ops.as_slice();
        let place = place_for(ops, op);
        if stands_at(ops, place, op) {
            return Ok(());
        }
        self.ops.insert(place, op)?;
        Ok(())
    }

    pub fn into_ops(self) -> Vec<OpNumber>
        ensures { result.items ≡ self }
    {
        self.ops
    }
}

/// The place behind all smaller operations.
fn place_for(ops: &[OpNumber], op: OpNumber) -> usize
    requires { AreOrdered ops.now }
    ensures below { result ≤ length ops.now }
    ensures place { IsPlaceFor op ops.now result }
{
    ops.partition_point(|other| other.0 < op.0)
}

/// Whether an operation stands at a place.
fn stands_at(ops: &[OpNumber], place: usize, op: OpNumber) -> bool
    ensures { result ≡ stands_at place op ops.now }
{
    place < ops.len() && ops[place].0 == op.0
}
