//! Operations whose own work has ended.

ghost use Rattle.std.specs.Prelude.{◌≡◌, [], IfOk, OnErr, OnOk};
ghost use Rattle.board_gives.specs.Gives.{also_told, ended_with};
ghost use Rattle.board_gives.specs.Rooms.{HasRoom};
ghost use Rattle.board_terms.specs.declared.operation.Activity.TheVariants as activity;
ghost use Rattle.board_terms.specs.declared.operation.Ending.TheVariants as ending_term;
ghost use Rattle.board_terms.specs.Gives.{frame_left, with_parts};
ghost use Rattle.board_terms.specs.States.{no_frame};
ghost use Rattle.physical_instances.specs.Kept.{map_of};

use crate::returning::give_parts;
use crate::telling::tell;
use board_terms::{Activity, Ending, Operation};
use machine_terms::{After, Frame, Stack};
use physical_instances::Contents;
use plain_values::Sequence;
use region_tree::{Needs, Part, RootId};
use std::alloc::{AllocError, Global};
use std::mem;

/// The own work of an operation ends at a fault, or broken; its parts are dropped.
pub fn fail(
    alloc: Global,
    operation: &mut Operation,
    ending: Ending,
    after: &mut After,
) -> Result<(), AllocError>
    ensures ended { OnOk result (operation.new ≡ ended_with operation.old after.old ending) }
    ensures unchanged { OnErr result (operation.new ≡ operation.old) }
    ensures handed { OnErr result (after.new ≡ after.old) }
{
    tell(alloc, operation, after.text.as_slice())?;
    leave(alloc, operation, after);
    close(alloc, operation, ending);
    Ok(())
}

/// The own work of an operation comes to its end with a value or none, and its parts go back.
pub fn end(
    alloc: Global,
    contents: &mut Contents,
    operation: &mut Operation,
    value: Option<i64>,
    after: &mut After,
) -> Result<(), AllocError>
    ensures ended { OnOk result (operation.new ≡ ended_with operation.old after.old (ending_term.Value value)) }
    ensures map { OnOk result (map_of contents.new ≡ with_parts after.old.parts (map_of contents.old)) }
    ensures unchanged { OnErr result (operation.new ≡ operation.old) }
    ensures same { OnErr result (map_of contents.new ≡ map_of contents.old) }
    ensures handed { OnErr result (after.new ≡ after.old) }
{
    prepare_end(alloc, contents, operation, after)?;
    leave(alloc, operation, after);
    give_parts(contents, take_parts(alloc, operation));
    close(alloc, operation, Ending::Value(value));
    Ok(())
}

/// Makes room for the reductions, and tells the text.
fn prepare_end(
    alloc: Global,
    contents: &mut Contents,
    operation: &mut Operation,
    after: &After,
) -> Result<(), AllocError>
    ensures told { OnOk result (operation.new ≡ also_told operation.old after.now.text) }
    ensures unchanged { OnErr result (operation.new ≡ operation.old) }
    ensures same { map_of contents.new ≡ map_of contents.old }
    ensures room { OnOk result (HasRoom contents.new after.now.parts) }
{
    contents.reserve(after.parts.as_slice())?;
    tell(alloc, operation, after.text.as_slice())
}

/// The parts that an operation holds, which it holds no more.
pub fn take_parts(alloc: Global, operation: &mut Operation) -> Sequence<Part>
    ensures parts { result ≡ operation.old.parts }
    ensures operation { operation.new ≡ record operation.old { parts = [] } }
{
    mem::replace(&mut operation.parts, Sequence::new(alloc))
}

/// An operation is as its segment left it, but for the text. The frame and the parts are taken out of what was left.
pub fn leave(alloc: Global, operation: &mut Operation, after: &mut After)
    ensures { operation.new ≡ record operation.old {
      frame = frame_left operation.old.frame after.old.frame;
      parts = after.old.parts;
      activity = activity.Idle;
    } }
{
    leave_frame(alloc, &mut operation.frame, after.frame.take());
    operation.parts = mem::replace(&mut after.parts, Sequence::new(alloc));
    operation.activity = Activity::Idle;
}

/// A frame is the one that a segment left, or, where it left none, one of the roots that the task made.
fn leave_frame(alloc: Global, frame: &mut Frame, left: Option<Frame>)
    ensures { frame.new ≡ frame_left frame.old left }
{
    match left {
        Some(left) => *frame = left,
        None => {
            let own = mem::replace(&mut frame.own, Sequence::new(alloc));
            *frame = frame_of_roots(alloc, own);
        }
    }
}

/// A copy of the frame that a segment left an operation.
pub fn copy_left(alloc: Global, operation: &Operation, after: &After) -> Result<Frame, AllocError>
    ensures { IfOk result (λ f. f ≡ frame_left operation.now.frame after.now.frame) }
{
    match &after.frame {
        Some(frame) => frame.copy(alloc),
        None => Ok(frame_of_roots(alloc, operation.frame.own.copy()?)),
    }
}

/// A frame of no task, with roots that a task made.
pub fn frame_of_roots(alloc: Global, own: Sequence<RootId>) -> Frame
    ensures { result ≡ record no_frame { own = own } }
{
    Frame {
        task: 0,
        pc: 0,
        slots: Sequence::new(alloc),
        stack: Stack::new(alloc),
        turns: 0,
        depth: 0,
        needs: Needs {
            items: Sequence::new(alloc),
        },
        own,
        children: 0,
        later: None,
    }
}

/// An operation holds no part, and its own work has ended.
fn close(alloc: Global, operation: &mut Operation, ending: Ending)
    ensures { operation.new ≡ record operation.old { parts = []; activity = activity.Closing ending } }
{
    operation.parts = Sequence::new(alloc);
    operation.activity = Activity::Closing(ending);
}
