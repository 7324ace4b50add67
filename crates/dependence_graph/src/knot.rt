//! What is kept of an operation.

ghost use Rattle.std.specs.Prelude.{◌≡◌};
ghost use Rattle.dependence_graph.specs.Awaited.{awaited_ops};

use crate::awaited::Awaited;
use crate::stage::Stage;
use region_tree::OpNumber;
use std::marker::Model;

/// An operation, with its parent, what it waits for or waited for last, and its stage.
#[derive(Drop)]
pub struct Knot {
    parent: OpNumber,
    on: Awaited,
    stage: Stage,
}

impl Model for Knot {
    ghost use Rattle.dependence_graph.specs.Awaited.{awaited_ops};
    ghost use Rattle.dependence_graph.specs.Entries.{Knot as Entry};

    ghost Value = { Entry };

    ghost view = { λ k. record { parent = k.parent; on = awaited_ops k.on; stage = k.stage } };
}

impl Knot {
    pub fn new(parent: OpNumber, on: Awaited, stage: Stage) -> Knot
        ensures { result ≡ record { parent = parent; on = awaited_ops on; stage = stage } }
    {
        Knot { parent, on, stage }
    }

    pub fn parent(&self) -> OpNumber
        ensures { result ≡ self.now.parent }
    {
        self.parent
    }

    pub fn on(&self) -> &[OpNumber]
        ensures { result.now ≡ self.now.on }
    {
        self.on.as_slice()
    }

    pub fn stage(&self) -> Stage
        ensures { result ≡ self.now.stage }
    {
        self.stage
    }

    pub fn enter(&mut self, stage: Stage)
        ensures { self.new ≡ record { parent = self.old.parent; on = self.old.on; stage = stage } }
    {
        self.stage = stage;
    }

    /// Lets it wait for others.
    pub fn wait(&mut self, on: Awaited, stage: Stage)
        ensures { self.new ≡ record { parent = self.old.parent; on = awaited_ops on; stage = stage } }
    {
        self.on = on;
        self.stage = stage;
    }
}
