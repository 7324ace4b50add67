//! Copies of elements for an operation.

ghost use Rattle.std.specs.Prelude.{◌≡◌, ◌<◌, ◌++◌, IfOk, OnErr, OnOk, false, length, map, slice_get, true};
ghost use Rattle.machine_terms.specs.Orders.{settled};
ghost use Rattle.board_state.specs.Steps.{before_out, copy_made, fill_in, has_more, is_filling, more_moved, sent_out};
ghost use Rattle.board_terms.specs.Claims.{before_of, filled_parts, frame_behind, moved_on, value_at, value_of};
ghost use Rattle.board_terms.specs.States.{doing, operation_at};
ghost use Rattle.physical_instances.specs.Kept.{KeepsSpare, map_of};

use crate::state::BoardState;
use board_terms::{Activity, Ending, Operation, Wait};
use machine_terms::{Before, Frame};
use physical_instances::{Contents, Fill, copy_part};
use plain_values::{Sequence, Shared};
use region_tree::{OpNumber, Part};
use std::alloc::{AllocError, Global};
use std::mem;
use task_code::Code;
use task_frames::settled;

impl BoardState {
    /// Moves the next elements for an operation that is being filled. Where none is left behind them it is out, and
    /// what its segment is run from is answered.
    #[tactic(auto, using(crate::proofs::Copies::filling_there, crate::proofs::Copies::copy_more, crate::proofs::Copies::copy_last, crate::proofs::Copies::before_needs))]
    pub fn copy(
        &mut self,
        code: &Shared<Code>,
        op: OpNumber,
    ) -> Result<Option<Shared<Before>>, AllocError>
        requires { is_filling (operation_at self.old op.0).activity ≡ true }
        ensures state { OnOk result (self.new ≡ copy_made code.now self.old op.0) }
        ensures before { IfOk result (λ b. b ≡ before_out (operation_at self.new op.0).activity) }
        ensures unchanged { OnErr result (self.new ≡ self.old) }
    {
        if self.has_more(op) {
            self.fill_more(op);
            return Ok(None);
        }
        let fill = self.last_fill(op)?;
        let before = self.before(code, op, fill)?;
        let lent = before.share()?;
        self.send_out(op, before);
        Ok(Some(lent))
    }

    /// Whether elements are left behind the next ones.
    fn has_more(&self, op: OpNumber) -> bool
        requires { op.0 < length self.now.operations }
        ensures { result ≡ has_more (operation_at self.now op.0).activity }
    {
        match &self.operations[op.0 as usize].activity {
            Activity::Filling {
                fill: Some(fill),
                ..
            } => fill.left() > 4096,
            _ => false,
        }
    }

    /// Moves the next elements.
    #[tactic(auto, using(crate::proofs::Copies::more_there, crate::proofs::Copies::more_kept))]
    fn fill_more(&mut self, op: OpNumber)
        requires { has_more (operation_at self.old op.0).activity ≡ true }
        ensures { self.new ≡ doing self.old op.0 (more_moved self.old.map (operation_at self.old op.0).activity) }
    {
        fill_next(
            &mut self.contents,
            &mut self.operations[op.0 as usize].activity,
        );
    }

    /// A copy of the fill with the next elements.
    fn last_fill(&mut self, op: OpNumber) -> Result<Option<Fill>, AllocError>
        requires { op.0 < length self.old.operations }
        ensures fill { IfOk result (λ f. f ≡ moved_on self.old (fill_in (operation_at self.old op.0).activity)) }
        ensures unchanged { self.new ≡ self.old }
    {
        match &self.operations[op.0 as usize].activity {
            Activity::Filling {
                fill: Some(fill),
                ..
            } => {
                let mut copy = fill.copy()?;
                self.contents.fill_chunk(&mut copy);
                Ok(Some(copy))
            }
            _ => Ok(None),
        }
    }

    /// What the next segment of an operation is run from, with the part that was filled, if any.
    fn before(
        &self,
        code: &Shared<Code>,
        op: OpNumber,
        fill: Option<Fill>,
    ) -> Result<Shared<Before>, AllocError>
        requires { op.0 < length self.now.operations }
        ensures { IfOk result (λ b. b ≡ before_of code.now self.now (operation_at self.now op.0) fill) }
    {
        let alloc = *self.operations.allocator();
        let operation = &self.operations[op.0 as usize];
        let parts = parts_with(alloc, operation.parts.as_slice(), fill)?;
        let code = code.share()?;
        let frame = self.frame_behind(operation)?;
        Shared::new(alloc, Before { code, frame, parts })
    }

    /// The frame in which an operation goes on: the value of a child that it waited for stands in it.
    fn frame_behind(&self, operation: &Operation) -> Result<Frame, AllocError>
        ensures { IfOk result (λ f. f ≡ frame_behind self.now operation.now operation.now.wait) }
    {
        let alloc = *self.operations.allocator();
        let mut frame = operation.frame.copy(alloc)?;
        self.settle_child(alloc, operation, &mut frame)?;
        Ok(frame)
    }

    /// The value of a child that an operation waited for stands in a copy of its frame.
    fn settle_child(
        &self,
        alloc: Global,
        operation: &Operation,
        frame: &mut Frame,
    ) -> Result<(), AllocError>
        requires { frame.old ≡ operation.now.frame }
        ensures { OnOk result (frame.new ≡ frame_behind self.now operation.now operation.now.wait) }
    {
        match operation.wait {
            Wait::Child(place) => {
                let number = self.value_at(operation.children.as_slice(), place);
                settle(alloc, frame, place, number)
            }
            _ => Ok(()),
        }
    }

    /// The value of a child by its place among the children.
    fn value_at(&self, children: &[OpNumber], place: u64) -> i64
        ensures { result ≡ value_at self.now (slice_get children.now place) }
    {
        match children.get(place as usize) {
            Some(child) => self.value_of(*child),
            None => 0,
        }
    }

    /// The value of an operation that has ended.
    fn value_of(&self, op: OpNumber) -> i64
        ensures { result ≡ value_of (operation_at self.now op.0).activity }
    {
        match self.operations.get(op.0 as usize) {
            Some(operation) => value_of(&operation.activity),
            None => 0,
        }
    }

    /// An operation that was filled is out.
    #[tactic(auto, using(crate::proofs::Copies::filling_there, crate::proofs::Copies::out_kept))]
    fn send_out(&mut self, op: OpNumber, before: Shared<Before>)
        requires filling { is_filling (operation_at self.old op.0).activity ≡ true }
        requires needs { before.frame.needs ≡ (operation_at self.old op.0).frame.needs }
        ensures { self.new ≡ doing self.old op.0 (sent_out before (operation_at self.old op.0).activity) }
    {
        send_out(&mut self.operations[op.0 as usize].activity, before);
    }
}

/// The value of a child stands in a frame in place of the child.
fn settle(alloc: Global, frame: &mut Frame, child: u64, number: i64) -> Result<(), AllocError>
    ensures { OnOk result (frame.new ≡ record frame.old { slots = map (settled child number) frame.old.slots }) }
{
    let slots = mem::replace(&mut frame.slots, Sequence::new(alloc));
    frame.slots = settled(alloc, child, number, slots)?;
    Ok(())
}

/// Moves the next elements of a fill.
fn fill_next(contents: &mut Contents, activity: &mut Activity)
    ensures activity { activity.new ≡ more_moved (map_of contents.old) activity.old }
    ensures map { map_of contents.new ≡ map_of contents.old }
{
    if let Activity::Filling {
        fill: Some(fill),
        ..
    } = activity
    {
        contents.fill_chunk(fill);
    }
}

/// What is being filled is out.
fn send_out(activity: &mut Activity, before: Shared<Before>)
    ensures { activity.new ≡ sent_out before activity.old }
{
    if let Activity::Filling { claim, .. } = activity {
        let claim = *claim;
        *activity = Activity::Out { claim, before };
    }
}

fn value_of(activity: &Activity) -> i64
    ensures { result ≡ value_of activity.now }
{
    match activity {
        Activity::Closing(Ending::Value(Some(value))) => *value,
        _ => 0,
    }
}

/// The same parts once more, and the part that was filled, if any.
fn parts_with(
    alloc: Global,
    parts: &[Part],
    fill: Option<Fill>,
) -> Result<Sequence<Part>, AllocError>
    ensures { IfOk result (λ all. all ≡ parts.now ++ filled_parts fill) }
{
    let mut all = copy_parts(alloc, parts)?;
    add_filled(&mut all, fill)?;
    Ok(all)
}

/// The same parts once more.
fn copy_parts(alloc: Global, parts: &[Part]) -> Result<Sequence<Part>, AllocError>
    ensures { IfOk result (λ copy. copy ≡ parts.now) }
{
    let mut copy = Sequence::new(alloc);
    for part in parts {
        copy.push(copy_part(alloc, part)?)?;
    }
    Ok(copy)
}

/// Adds the part that was filled, if any.
fn add_filled(parts: &mut Sequence<Part>, fill: Option<Fill>) -> Result<(), AllocError>
    ensures { OnOk result (parts.new ≡ parts.old ++ filled_parts fill) }
{
    match fill {
        Some(fill) => parts.push(fill.part()),
        None => Ok(()),
    }
}
