//! The rounds of a launch, with their calls.

ghost use Rattle.std.specs.Prelude.{◌≡◌, IfOk, List, map, ℕ};
ghost use Rattle.index_launch.specs.Points.{calls_of};
ghost use Rattle.launch_calls.specs.Rounds.{in_common, round_of, rounds_begun, shown_launch};
ghost use Rattle.machine_terms.specs.Launches.{Launched as AnyLaunched, call_then, launched, round_then};
ghost use Rattle.machine_terms.specs.declared.value.Value.{Value as AnyValue};

use crate::handed::arguments;
use index_launch::{LaunchArg, PointArg, points_of};
use machine_state::Slots;
use machine_terms::{CallOut, DEEPEST, Value};
use plain_values::Sequence;
use regent_tree::{Fault, FaultKind};
use std::alloc::{AllocError, Global};

/// What all calls of a launch have in common beside the slots: the task, the depth of the caller, and the lines of the
/// loop and of the call.
#[derive(Clone, Copy)]
pub struct Rounds {
    pub task: u32,
    pub depth: u8,
    pub loop_line: u32,
    pub call_line: u32,
}

/// The calls before the first fault, the turns that are left then, and that fault.
#[derive(Drop)]
pub struct Issued {
    pub calls: Sequence<CallOut>,
    pub turns: u64,
    pub fault: Option<Fault>,
}

impl Rounds {
    /// One round of the loop, which takes two turns where it is whole: its call, or the fault that it meets.
    fn round(
        &self,
        alloc: Global,
        slots: &Slots,
        args: &[PointArg],
        turns: &mut u64,
    ) -> Result<Result<CallOut, Fault>, AllocError>
        ensures { IfOk result (λ round. (more : ℕ → AnyLaunched) →
            round_then (in_common self.now slots.now) args.now turns.old more ≡ round_of round turns.new more) }
    {
        if *turns == 0 {
            return Ok(Err(fault(FaultKind::Turns, self.loop_line)));
        }
        *turns -= 1;
        let Some(args) = arguments(alloc, slots, args)? else {
            return Ok(Err(fault(FaultKind::BadColor, self.call_line)));
        };
        Ok(self.call(args, turns))
    }

    /// The call with these arguments, or its fault.
    fn call(&self, args: Sequence<Value>, turns: &mut u64) -> Result<CallOut, Fault>
        ensures { (slots : List AnyValue) (more : ℕ → AnyLaunched) →
            call_then (in_common self.now slots) args turns.old more ≡ round_of result turns.new more }
    {
        let Some(left) = turns.checked_sub(1) else {
            return Err(fault(FaultKind::Turns, self.call_line));
        };
        *turns = left;
        if self.depth >= DEEPEST {
            return Err(fault(FaultKind::Depth, self.call_line));
        }
        Ok(CallOut {
            task: self.task,
            args,
        })
    }

    /// The calls of all rounds up to the first fault, of a loop over so many colours with so many turns.
    pub fn issue(
        &self,
        alloc: Global,
        slots: &Slots,
        colours: u32,
        args: &[LaunchArg],
        turns: u64,
    ) -> Result<Issued, AllocError>
        ensures { IfOk result (λ issued. shown_launch issued
            ≡ launched (in_common self.now slots.now) (calls_of colours args.now) turns) }
    {
        let rounds = points_of(alloc, rounds_begun(colours, turns), args)?;
        self.all(alloc, slots, rounds.as_slice(), turns)
    }

    /// All of these rounds up to the first fault.
    fn all(
        &self,
        alloc: Global,
        slots: &Slots,
        rounds: &[Vec<PointArg>],
        turns: u64,
    ) -> Result<Issued, AllocError>
        ensures { IfOk result (λ issued. shown_launch issued
            ≡ launched (in_common self.now slots.now) (map (λ args. args.items) rounds.now) turns) }
    {
        let mut calls = Sequence::new(alloc);
        let mut left = turns;
        for args in rounds {
            match self.round(alloc, slots, args.as_slice(), &mut left)? {
                Ok(call) => calls.push(call)?,
                Err(fault) => {
                    return Ok(Issued {
                        calls,
                        turns: left,
                        fault: Some(fault),
                    });
                }
            }
        }
        Ok(Issued {
            calls,
            turns: left,
            fault: None,
        })
    }
}

/// How many rounds are begun at most: each but the last takes two turns.
fn rounds_begun(colours: u32, turns: u64) -> u32
    ensures { result ≡ rounds_begun colours turns }
{
    if turns / 2 < u64::from(colours) {
        (turns / 2) as u32 + 1
    } else {
        colours
    }
}

fn fault(kind: FaultKind, line: u32) -> Fault
    ensures { result ≡ record { kind = kind; line = line } }
{
    Fault { kind, line }
}
