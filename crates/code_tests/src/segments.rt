//! Segments of code by hand, which the machine runs with memory at hand.

ghost use Rattle.std.specs.Prelude.{◌<◌};

use crate::runs::lines;
use index_launch::LaunchArg;
use index_spaces::Ispace;
use lane_kernels::{FieldKind, Mode, Width};
use plain_values::{Sequence, Shared};
use point_sets::PointSet;
use regent_tree::{Fault, FaultKind};
use region_tree::{Need, Needs, Node, Part, Piece, RootId};
use std::alloc::{AllocError, Global};
use std::test::Fail;
use task_code::{Code, Instr, Line, PrintPart, TaskCode};
use task_machine::{
    After, Before, Frame, PartitionValue, Ran, RegionValue, Stack, Value, Yield, run, run_segment,
};

const ROOT: RootId = RootId(0);

const NODE: Node = Node(0);

/// Code of one task, with five slots.
fn code(alloc: Global, params: u8, body: Sequence<Line>) -> Result<Code, AllocError> {
    let task = TaskCode {
        params,
        result: false,
        needs: Sequence::new(alloc),
        slots: 5,
        body,
    };
    Ok(Code {
        tasks: Sequence::from_vec(vec![in alloc; task]?),
        spaces: Sequence::new(alloc),
        start: 0,
    })
}

/// The first five points of a root.
fn region(alloc: Global) -> Result<RegionValue, AllocError> {
    Ok(RegionValue {
        root: ROOT,
        node: NODE,
        points: Shared::new(alloc, PointSet::range(alloc, 0, 5)?)?,
    })
}

/// A partition of the region in one.
fn partition(alloc: Global) -> Result<Value, AllocError> {
    let child = region(alloc)?;
    let children = Sequence::from_vec(vec![in alloc; child]?);
    Ok(Value::Partition(PartitionValue {
        root: ROOT,
        disjoint: true,
        children: Shared::new(alloc, children)?,
    }))
}

/// A space of three points.
fn space() -> Result<Value, AllocError> {
    match Ispace::line(3) {
        Ok(space) => Ok(Value::Space(space)),
        Err(_) => Err(AllocError),
    }
}

/// Slots with a value of each kind, and then the number 0.
fn slots(alloc: Global) -> Result<Sequence<Value>, AllocError> {
    let space = space()?;
    let region = Value::Region(region(alloc)?);
    let partition = partition(alloc)?;
    Ok(Sequence::from_vec(vec![in alloc;
        region,
        partition,
        space,
        Value::Pending(7),
        Value::Number(0),
    ]?))
}

/// A frame that writes field 0 of the root.
fn frame(alloc: Global, turns: u64) -> Result<Frame, AllocError> {
    let need = Need {
        root: ROOT,
        node: NODE,
        field: 0,
        mode: Mode::Write,
    };
    let items = Sequence::from_slice(alloc, &[need])?;
    Ok(Frame {
        task: 0,
        pc: 0,
        slots: slots(alloc)?,
        stack: Stack::new(alloc),
        turns,
        depth: 1,
        needs: Needs { items },
        own: Sequence::new(alloc),
        children: 0,
        later: None,
    })
}

/// The part for the field, with 10 at each point.
fn part(alloc: Global) -> Result<Part, AllocError> {
    let values = Sequence::from_slice(alloc, &[10, 10, 10, 10, 10])?;
    let piece = Piece {
        points: PointSet::range(alloc, 0, 5)?,
        mode: Mode::Write,
        values,
    };
    Ok(Part {
        root: ROOT,
        field: 0,
        kind: FieldKind::Int64,
        pieces: Sequence::from_vec(vec![in alloc; piece]?),
    })
}

fn parts(alloc: Global) -> Result<Sequence<Part>, AllocError> {
    let part = part(alloc)?;
    Ok(Sequence::from_vec(vec![in alloc; part]?))
}

/// What code leaves with so many turns, on these parts.
fn left(
    alloc: Global,
    code: &Code,
    turns: u64,
    parts: Sequence<Part>,
) -> Result<After, AllocError> {
    let frame = frame(alloc, turns)?;
    run(alloc, code, frame, parts)
}

/// What a body leaves, on the part.
fn left_by<const N: usize>(alloc: Global, turns: u64, body: [Instr; N]) -> Result<After, AllocError>
    requires { N < 1000 }
{
    let body = lines(alloc, body)?;
    let code = code(alloc, 0, body)?;
    let parts = parts(alloc)?;
    left(alloc, &code, turns, parts)
}

/// The print of a number with an exclamation mark.
fn exclaimed(alloc: Global) -> Result<Instr, AllocError> {
    let end = PrintPart::Text(Sequence::from_slice(alloc, b"!\n")?);
    let parts = vec![in alloc; PrintPart::Number, end]?;
    Ok(Instr::Print(Sequence::from_vec(parts)))
}

/// Whether a segment has printed this text, and ended without a value and without a frame.
fn has_printed(after: &After, text: &[u8]) -> bool {
    let ended = matches!(after.ends, Yield::End(None));
    ended && after.frame.is_none() && after.text.as_slice() == text
}

#[test]
fn numbers_are_computed_and_printed(rt: HostRuntime) -> Result<(), Fail> {
    let alloc = rt.alloc();
    let print = exclaimed(alloc)?;
    let after = left_by(
        alloc,
        0,
        [
            Instr::Num(-7),
            Instr::Num(2),
            Instr::Div(Width::W64),
            print,
            Instr::Return,
        ],
    )?;
    assert!(rt; has_printed(&after, b"-3!\n"));
    Ok(())
}

#[test]
fn values_of_each_kind_are_loaded(rt: HostRuntime) -> Result<(), Fail> {
    let alloc = rt.alloc();
    for slot in [0, 1, 2, 4] {
        let after = left_by(alloc, 0, [Instr::Load(slot), Instr::Drop, Instr::Return])?;
        assert!(rt; matches!(after.ends, Yield::End(None)), "{slot}");
    }
    Ok(())
}

/// Whether a segment awaits operation 7 at its first instruction.
fn awaits(after: &After) -> bool {
    let stays = match &after.frame {
        Some(frame) => frame.pc == 0,
        None => false,
    };
    stays && matches!(after.ends, Yield::Await(7))
}

#[test]
fn a_pending_value_is_awaited(rt: HostRuntime) -> Result<(), Fail> {
    let alloc = rt.alloc();
    let after = left_by(alloc, 0, [Instr::Load(3)])?;
    assert!(rt; awaits(&after));
    Ok(())
}

#[test]
fn turns_run_out(rt: HostRuntime) -> Result<(), Fail> {
    let alloc = rt.alloc();
    let turns = left_by(alloc, 1, [Instr::Turn, Instr::Turn])?;
    let fault = Fault {
        kind: FaultKind::Turns,
        line: 2,
    };
    assert!(rt; matches!(turns.ends, Yield::Fault(told) if told == fault));
    Ok(())
}

/// A task of two parameters that launches itself over the space, with the part of each colour and a number. The
/// partition has the first colour alone.
fn launching(alloc: Global) -> Result<Code, AllocError> {
    let args = Sequence::from_slice(alloc, &[LaunchArg::Child(1), LaunchArg::Number(6)])?;
    let body = lines(alloc, [Instr::Launch(0, 2, 9, args)])?;
    code(alloc, 2, body)
}

/// What it leaves with so many turns.
fn launched_with(alloc: Global, turns: u64) -> Result<After, AllocError> {
    let code = launching(alloc)?;
    left(alloc, &code, turns, Sequence::new(alloc))
}

/// Whether the frame keeps this fault for later.
fn keeps(after: &After, fault: Fault) -> bool {
    match &after.frame {
        Some(frame) => frame.later == Some(fault),
        None => false,
    }
}

/// Whether so many calls were launched, and then this fault is kept; or it comes at once, where there are none.
fn is_launched(after: &After, calls: usize, fault: Fault) -> bool {
    match &after.ends {
        Yield::Calls(made) => {
            let all_take = made.as_slice().iter().all(|call| {
                matches!(call.args.as_slice(), [Value::Region(_), Value::Number(6)])
            });
            all_take && made.len() == calls && keeps(after, fault)
        }
        Yield::Fault(told) => calls == 0 && *told == fault,
        _ => false,
    }
}

#[test]
fn calls_are_launched_up_to_a_fault(rt: HostRuntime) -> Result<(), Fail> {
    for (turns, calls, kind, line) in [
        (0, 0, FaultKind::Turns, 1),
        (1, 0, FaultKind::Turns, 9),
        (2, 1, FaultKind::Turns, 1),
        (3, 1, FaultKind::BadColor, 9),
    ] {
        let after = launched_with(rt.alloc(), turns)?;
        let fault = Fault { kind, line };
        assert!(rt; is_launched(&after, calls, fault), "{turns} turns");
    }
    Ok(())
}

/// A task that stores a number.
fn storing(alloc: Global) -> Result<Shared<Code>, AllocError> {
    let body = lines(alloc, [Instr::Num(3), Instr::Store(4), Instr::Return])?;
    let code = code(alloc, 0, body)?;
    Shared::new(alloc, code)
}

fn before(alloc: Global) -> Result<Shared<Before>, AllocError> {
    let parts = parts(alloc)?;
    let code = storing(alloc)?;
    let frame = frame(alloc, 0)?;
    Shared::new(alloc, Before { code, frame, parts })
}

/// Whether a run has ended, and keeps the frame and the part that it ran from.
fn keeps_before(ran: &Ran) -> bool {
    let before = ran.before().get();
    let kept = matches!(before.frame.slots.as_slice().get(4), Some(Value::Number(0)));
    kept && before.parts.len() == 1 && matches!(ran.after().ends, Yield::End(None))
}

#[test]
fn a_segment_leaves_what_it_ran_from(rt: HostRuntime) -> Result<(), Fail> {
    let alloc = rt.alloc();
    let ran = run_segment(alloc, before(alloc)?)?;
    let kept = keeps_before(&ran);
    let after = ran.into_after();
    assert_eq!(rt; (kept, after.parts.len()), (true, 1));
    Ok(())
}
