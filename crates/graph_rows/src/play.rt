//! A graph with its forest, whose calls are made where they may be made.

ghost use Rattle.std.specs.Prelude.{◌≡◌, [], IfSome, IsTrue, true};
ghost use Rattle.dependence_graph.specs.Issues.{IsOwn, IsPartOf};
ghost use Rattle.dependence_graph.specs.Knots.{is_in_progress, knot_at};
ghost use Rattle.dependence_graph.specs.declared.stage.How.TheVariants.{Failed};
ghost use Rattle.dependence_graph.specs.declared.stage.Stage.TheVariants.{Stopped};
ghost use Rattle.graph_rows.specs.Plays.{AreIssued};

use crate::family::{Family, has_child};
use crate::needs::{are_all_needs, are_needs};
use dependence_graph::{Graph, How, Issued, Stage, Waiting};
use region_finder::{Finder, Steps};
use region_forest::Forest;
use region_tree::{Needs, OpNumber};
use std::alloc::{AllocError, Global};
use std::marker::Model;
use std::sync::ledger::Ledger;

/// A graph over a forest, with all that was issued, which contracts see as the graph.
#[derive(Drop)]
pub struct Play<F: Finder + Drop> {
    forest: Forest,
    graph: Graph<F>,
    families: Vec<Family>,
}

impl<F: Finder + Drop> Model for Play<F> {
    ghost use Rattle.dependence_graph.specs.Graphs.{Waits};
    ghost use Rattle.graph_rows.specs.Plays.{IsPlay};

    ghost Value = { Waits };

    ghost view = { λ p. p.graph };

    ghost invariant = { λ p. IsPlay p.forest p.graph p.families.items };
}

/// The stage of an operation in progress.
fn progress<F: Finder + Drop>(graph: &Graph<F>, op: OpNumber) -> Option<Stage>
    ensures there { IfSome result (λ s. (knot_at graph.now.knots op.0).stage ≡ s) }
    ensures progress { IfSome result (λ s. is_in_progress s ≡ true) }
{
    match graph.stage(op) {
        Some(stage) if stage.is_in_progress() => Some(stage),
        _ => None,
    }
}

/// Whether an operation in progress may end so: one that was stopped fails.
fn may_end(stage: Stage, how: How) -> bool
    ensures { IsTrue result → stage ≡ Stopped → how ≡ Failed }
{
    !matches!(stage, Stage::Stopped) || matches!(how, How::Failed)
}

/// Whether an operation may wait so: for a part of needs of the forest, or for a child of its own.
fn may_wait<F: Finder + Drop>(
    forest: &Forest,
    graph: &Graph<F>,
    families: &[Family],
    op: OpNumber,
    on: &Waiting,
) -> bool
    requires { AreIssued graph.now.knots families.now }
    ensures part { IsTrue result → IsPartOf forest.now on.now }
    ensures own { IsTrue result → IsOwn graph.now.knots op.0 on.now }
{
    match on {
        Waiting::Nothing => true,
        Waiting::Part(needs) => are_needs(forest, needs),
        Waiting::Child(child) => has_child(graph, families, op, *child),
    }
}

impl<F: Finder + Drop> Play<F> {
    pub fn new(alloc: Global, forest: Forest, finder: F) -> Result<Play<F>, AllocError>
        requires { F.listing finder ≡ [] }
    {
        let graph = Graph::new(alloc, finder)?;
        Ok(Play {
            forest,
            graph,
            families: Vec::new(alloc),
        })
    }

    pub fn forest(&self) -> &Forest {
        &self.forest
    }

    pub fn graph(&self) -> &Graph<F> {
        &self.graph
    }

    /// Issues children of an operation in progress, with needs of the forest.
    pub fn issue<L: Ledger>(
        &mut self,
        parent: OpNumber,
        needs: Vec<Needs>,
        steps: &mut Steps<L>,
    ) -> Result<Option<Issued>, AllocError> {
        let Some(_) = progress(&self.graph, parent) else {
            return Ok(None);
        };
        if !are_all_needs(&self.forest, needs.as_slice()) {
            return Ok(None);
        }
        let children = self.graph.issue(&self.forest, parent, needs, steps)?;
        self.families.push(Family { parent, children })?;
        Ok(Some(children))
    }

    /// Begins an operation that is ready.
    pub fn begin(&mut self, op: OpNumber) -> bool {
        if !self.graph.ready(op) {
            return false;
        }
        self.graph.begin(op);
        true
    }

    /// Lets an operation that has begun wait.
    pub fn park<L: Ledger>(
        &mut self,
        op: OpNumber,
        on: Waiting,
        steps: &mut Steps<L>,
    ) -> Result<bool, AllocError> {
        let Some(Stage::Begun) = progress(&self.graph, op) else {
            return Ok(false);
        };
        if !may_wait(&self.forest, &self.graph, self.families.as_slice(), op, &on) {
            return Ok(false);
        }
        self.graph.park(&self.forest, op, on, steps)?;
        Ok(true)
    }

    /// Ends an operation in progress.
    pub fn end(&mut self, op: OpNumber, how: How) -> bool {
        let Some(stage) = progress(&self.graph, op) else {
            return false;
        };
        if !may_end(stage, how) {
            return false;
        }
        self.graph.end(op, how);
        true
    }
}
