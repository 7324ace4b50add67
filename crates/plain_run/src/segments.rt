//! Segments of an instance.

ghost use Rattle.std.specs.Prelude.{◌≡◌, [], IsTrue, IfOk, OnOk};
ghost use Rattle.machine_terms.specs.Orders.{before_of};
ghost use Rattle.machine_terms.specs.Segments.{segment};
ghost use Rattle.plain_run.specs.Nexts.{FrameLeft, HasRun};

use machine_terms::{After, Frame, Instance, Stack, Yield};
use plain_values::Sequence;
use region_tree::{Needs, Part, RootId};
use std::alloc::{AllocError, Global};
use std::mem;
use task_code::Code;
use task_machine::run;

/// Runs an instance for one segment. Returns whether the segment left a frame, and what it stopped for; where it left
/// none, the instance keeps the roots of its frame.
pub fn run_one(
    alloc: Global,
    code: &Code,
    instance: &mut Instance,
) -> Result<(bool, Yield), AllocError>
    ensures { IfOk result (λ r. HasRun (segment (before_of code.now instance.old)) r.0 r.1
        instance.old instance.new) }
{
    let After {
        frame,
        parts,
        text,
        ends,
    } = run_taken(alloc, code, instance)?;
    let goes_on = put_frame(frame, &mut instance.frame);
    instance.parts = parts;
    instance.text.extend(text.as_slice())?;
    Ok((goes_on, ends))
}

/// Runs a segment with the frame and the parts of an instance, of which the roots of the frame stay.
fn run_taken(alloc: Global, code: &Code, instance: &mut Instance) -> Result<After, AllocError>
    ensures after { IfOk result (λ after. after ≡ segment (before_of code.now instance.old)) }
    ensures own { OnOk result (instance.new.frame.own ≡ instance.old.frame.own) }
    ensures rest { OnOk result (instance.new ≡ record instance.old {
      frame = instance.new.frame;
      parts = [];
    }) }
{
    let left = frame_of_roots(alloc, instance.frame.own.copy()?);
    let frame = mem::replace(&mut instance.frame, left);
    let parts = mem::replace(&mut instance.parts, Sequence::new(alloc));
    run(alloc, code, frame, parts)
}

/// Puts the frame in place that a segment left, if it left one, and returns whether it did.
fn put_frame(left: Option<Frame>, frame: &mut Frame) -> bool
    ensures { FrameLeft left result frame.old frame.new }
{
    match left {
        Some(left) => {
            *frame = left;
            true
        }
        None => false,
    }
}

/// A frame that holds nothing but the roots that a task made.
fn frame_of_roots(alloc: Global, own: Sequence<RootId>) -> Frame
    ensures { result.own ≡ own }
{
    Frame {
        task: 0,
        pc: 0,
        slots: Sequence::new(alloc),
        stack: Stack::new(alloc),
        turns: 0,
        depth: 0,
        needs: Needs {
            items: Sequence::new(alloc),
        },
        own,
        children: 0,
        later: None,
    }
}
