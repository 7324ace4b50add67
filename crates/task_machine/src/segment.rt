//! Segments.

ghost use Rattle.std.specs.Prelude.{◌≡◌, [], IfOk};
ghost use Rattle.task_machine.specs.Acts.{opened_as, shown_after, task_after};
ghost use Rattle.machine_terms.specs.Segments.{frame_after, segment};

use crate::running::Running;
use machine_state::{Holdings, Slots, copy_parts};
use machine_terms::{After, Before, Frame, Ran, Yield};
use plain_values::{Sequence, Shared};
use region_tree::{Needs, Part};
use std::alloc::{AllocError, Global};
use std::mem;
use task_code::Code;

/// Runs a frame on its parts, in place, until it yields. The frame and the parts that come back are the
/// given ones as the run left them.
pub fn run(
    alloc: Global,
    code: &Code,
    frame: Frame,
    parts: Sequence<Part>,
) -> Result<After, AllocError>
    ensures { IfOk result (λ after. after
        ≡ segment (record { code = code.now; frame = frame; parts = parts })) }
{
    let mut running = Running::open(alloc, frame, parts);
    let ends = running.run_task(code)?;
    Ok(running.close(ends))
}

/// Runs a segment on a copy of its frame and its parts.
pub fn run_segment(alloc: Global, before: Shared<Before>) -> Result<Ran, AllocError>
    ensures { IfOk result (λ ran. ran ≡ before) }
{
    let after = run_copied(alloc, before.get())?;
    Ok(Ran::new(before, after))
}

/// What a segment leaves.
fn run_copied(alloc: Global, before: &Before) -> Result<After, AllocError>
    ensures { IfOk result (λ after. after ≡ segment before.now) }
{
    let frame = before.frame.copy(alloc)?;
    let parts = copy_parts(alloc, before.parts.as_slice())?;
    run(alloc, before.code.get(), frame, parts)
}

impl Running {
    /// The state in which a run begins.
    fn open(alloc: Global, frame: Frame, parts: Sequence<Part>) -> Running
        ensures { opened_as frame parts result }
    {
        let mut frame = frame;
        let none = Needs {
            items: Sequence::new(alloc),
        };
        let needs = mem::replace(&mut frame.needs, none);
        let slots = mem::replace(&mut frame.slots, Sequence::new(alloc));
        Running {
            frame,
            slots: Slots::new(slots),
            held: Holdings::new(needs, parts),
            text: Sequence::new(alloc),
            ends: None,
            alloc,
        }
    }

    /// Runs the frame's task until it stops, and says for what.
    fn run_task(&mut self, code: &Code) -> Result<Yield, AllocError>
        requires { self.old.text ≡ [] }
        ensures { IfOk result (λ ends. shown_after ends self.new ≡ task_after code.now self.old) }
    {
        let Some(task) = code.tasks.as_slice().get(self.frame.task as usize) else {
            return Ok(Yield::MachineFault);
        };
        if self.slots.len() != task.slots as usize {
            return Ok(Yield::MachineFault);
        }
        match self.frame.later {
            Some(fault) => Ok(Yield::Fault(fault)),
            None => Ok(self.run(code, task.body.as_slice(), self.frame.pc)?),
        }
    }

    /// What the run leaves.
    fn close(self, ends: Yield) -> After
        ensures { result ≡ shown_after ends self }
    {
        let Running {
            frame,
            slots,
            held,
            text,
            ends: _ends,
            alloc: _alloc,
        } = self;
        let (needs, parts) = held.into_parts();
        let slots = slots.into_sequence();
        let frame = kept_frame(
            &ends,
            Frame {
                slots,
                needs,
                ..frame
            },
        );
        After {
            frame,
            parts,
            text,
            ends,
        }
    }
}

/// The frame behind a segment, unless its task instance ended or faulted.
fn kept_frame(ends: &Yield, frame: Frame) -> Option<Frame>
    ensures { result ≡ frame_after ends.now frame }
{
    match ends {
        Yield::End(_) | Yield::Fault(_) | Yield::MachineFault => None,
        _ => Some(frame),
    }
}
