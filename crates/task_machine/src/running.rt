//! The state of a run.

ghost use Rattle.std.specs.Prelude.{◌≡◌, Some, None, suc};
ghost use Rattle.task_machine.specs.Acts.{Does, told};
ghost use Rattle.machine_terms.specs.Machine.{at, yields};
ghost use Rattle.task_machine.specs.declared.running.Act.TheVariants as act;
ghost use Rattle.task_machine.specs.declared.running.Act.TheVariants.{Broken, Stop};

use machine_state::{Holdings, Slots};
use machine_terms::{Frame, Yield};
use plain_values::Sequence;
use regent_tree::{Fault, FaultKind};
use std::alloc::Global;

/// A frame that runs on the parts that it holds. While it runs, the place of its instruction stands
/// beside it, its needs stand with the parts, and its slots by themselves.
#[derive(Drop)]
pub(crate) struct Running {
    pub(crate) frame: Frame,
    pub(crate) slots: Slots,
    pub(crate) held: Holdings,
    pub(crate) text: Sequence<u8>,
    /// What the segment yields, where it has stopped to go on later, or has ended.
    pub(crate) ends: Option<Yield>,
    pub(crate) alloc: Global,
}

/// What follows an instruction.
#[derive(Clone, Copy)]
pub(crate) enum Act {
    /// The next place.
    Next,
    /// Another place.
    Jump(u32),
    /// The segment ends since the code does what no compiled program does.
    Broken,
    Fault(Fault),
    /// The segment ends for what the state has in `ends`.
    Stop,
}

impl Act {
    #[inline(always)]
    pub(crate) fn broken() -> Act
        ensures { result ≡ Broken }
    {
        Act::Broken
    }

    /// The segment ends with a fault.
    #[inline(always)]
    pub(crate) fn fault(kind: FaultKind, line: u32) -> Act
        ensures { result ≡ act.Fault (record { kind = kind; line = line }) }
    {
        Act::Fault(Fault { kind, line })
    }
}

impl Running {
    /// The segment ends at a place, where the frame goes on.
    pub(crate) fn stop_at(&mut self, pc: u32, ends: Yield) -> Act
        ensures act { result ≡ Stop }
        ensures state { self.new
            ≡ record self.old { frame = record self.old.frame { pc = pc }; ends = Some ends } }
    {
        self.frame.pc = pc;
        self.ends = Some(ends);
        Act::Stop
    }

    /// What the segment yields, which is taken out.
    pub(crate) fn take_ends(&mut self) -> Yield
        ensures value { result ≡ told self.old.ends }
        ensures state { self.new ≡ record self.old { ends = None } }
    {
        match self.ends.take() {
            Some(ends) => ends,
            None => Yield::MachineFault,
        }
    }

    /// The segment ends behind the instruction at a place, and yields something, where the place behind
    /// it is a number of 32 bits.
    pub(crate) fn yield_behind(&mut self, pc: u32, ends: Yield) -> Act
        ensures { Does (λ m. yields ends (at (suc m.frame.pc) m.frame.stack m)) pc self.old self.new result }
    {
        match pc.checked_add(1) {
            Some(next) => self.stop_at(next, ends),
            None => Act::broken(),
        }
    }
}
