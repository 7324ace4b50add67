//! Operations that are over.

ghost use Rattle.std.specs.Prelude.{◌≡◌, ◌<◌, length, true};
ghost use Rattle.board_terms.specs.Closings.{all_good, all_over, came_to_end, closed_all, followed, how_closed, may_close, over};
ghost use Rattle.board_terms.specs.Stages.{is_good, stage_at};
ghost use Rattle.board_terms.specs.States.{operation_at};
ghost use Rattle.physical_instances.specs.Kept.{map_of};

use crate::stages::{is_closing, is_stopped};
use crate::state::BoardState;
use board_terms::{Activity, Ending};
use dependence_graph::{How, Stage};
use physical_instances::Contents;
use region_tree::{OpNumber, RootId};

impl BoardState {
    /// An operation whose own work has ended is over when its children are, and so on up its callers.
    pub fn follow(&mut self, op: OpNumber)
        ensures { self.new ≡ followed self.old op.0 }
    {
        let mut at = op;
        for _level in 0..self.operations.len() {
            if !self.may_close(at) {
                return;
            }
            self.close(at);
            if at.0 == 0 {
                return;
            }
            at = self.parent_of(at);
        }
    }

    /// Who called an operation.
    fn parent_of(&self, op: OpNumber) -> OpNumber
        ensures { result ≡ (operation_at self.now op.0).parent }
    {
        match self.operations.get(op.0 as usize) {
            Some(operation) => operation.parent,
            None => OpNumber(0),
        }
    }

    /// Whether an operation's own work has ended, and all of its children are over.
    fn may_close(&self, op: OpNumber) -> bool
        ensures { result ≡ may_close self.now op.0 }
    {
        match (self.graph.stage(op), self.operations.get(op.0 as usize)) {
            (Some(stage), Some(operation)) => {
                is_closing(stage, &operation.activity)
                    && self.all_over(operation.children.as_slice())
            }
            _ => false,
        }
    }

    /// Whether all of these are over. The last ones are asked first, since mostly they are over last.
    fn all_over(&self, ops: &[OpNumber]) -> bool
        ensures { result ≡ all_over self.now ops.now }
    {
        for place in 0..ops.len() {
            if !self.is_over(ops[ops.len() - 1 - place]) {
                return false;
            }
        }
        true
    }

    /// Whether all of these have ended, and none has failed or was dropped.
    fn all_good(&self, ops: &[OpNumber]) -> bool
        ensures { result ≡ all_good self.now ops.now }
    {
        for op in ops {
            if !self.is_good(*op) {
                return false;
            }
        }
        true
    }

    /// Whether an operation has ended and hasn't failed.
    fn is_good(&self, op: OpNumber) -> bool
        ensures { result ≡ is_good (stage_at self.now op.0) }
    {
        matches!(self.graph.stage(op), Some(Stage::Done))
    }

    /// How an operation ends that may close.
    fn how_closed(&self, op: OpNumber) -> How
        requires { op.0 < length self.now.operations }
        ensures { result ≡ how_closed self.now op.0 }
    {
        let operation = &self.operations[op.0 as usize];
        if !is_stopped(self.graph.stage(op))
            && came_to_end(&operation.activity)
            && self.all_good(operation.children.as_slice())
        {
            How::Done
        } else {
            How::Failed
        }
    }

    /// An operation is over that may close.
    #[tactic(auto, using(crate::proofs::Closings::close_progress, crate::proofs::Closings::close_stopped, crate::proofs::Closings::close_there, crate::proofs::Closings::over_kept))]
    fn close(&mut self, op: OpNumber)
        requires { may_close self.old op.0 ≡ true }
        ensures { self.new ≡ over self.old op.0 }
    {
        let how = self.how_closed(op);
        self.graph.end(op, how);
        if op.0 > 0 {
            let own = &self.operations[op.0 as usize].frame.own;
            close_all(&mut self.contents, own.as_slice());
        }
    }
}

/// Whether an operation has come to its end.
fn came_to_end(activity: &Activity) -> bool
    ensures { result ≡ came_to_end activity.now }
{
    matches!(activity, Activity::Closing(Ending::Value(_)))
}

/// Closes these roots.
fn close_all(contents: &mut Contents, roots: &[RootId])
    ensures { map_of contents.new ≡ closed_all roots.now (map_of contents.old) }
{
    for root in roots {
        contents.close_root(*root);
    }
}
