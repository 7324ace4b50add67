//! Each call with memory at hand. What is expected is worked out by hand.

ghost use Rattle.std.specs.Prelude.{◌≡◌, IfOk, length};

use index_launch::{
    ArgKind, ArgView, LaunchArg, LaunchShape, LoopView, PointArg, Reason, launch_shape, points_of,
};
use lane_kernels::{Mode, Op};
use plain_values::Sequence;
use std::alloc::{AllocError, Global};
use std::test::Fail;

const DISJOINT: ArgKind = ArgKind::Child {
    partition: 1,
    disjoint: true,
};

const ALIASED: ArgKind = ArgKind::Child {
    partition: 1,
    disjoint: false,
};

const ANOTHER: ArgKind = ArgKind::Child {
    partition: 2,
    disjoint: true,
};

fn arg(alloc: Global, kind: ArgKind, field: u8, mode: Mode) -> Result<ArgView, AllocError> {
    let mut uses = Sequence::new(alloc);
    uses.push((field, mode))?;
    Ok(ArgView {
        kind,
        space: 0,
        uses,
    })
}

/// A loop over a space with one call of these two arguments, of which no pair is apart.
fn view_of(
    alloc: Global,
    one: (ArgKind, Mode),
    other: (ArgKind, u8, Mode),
) -> Result<LoopView, AllocError>
    ensures { IfOk result (λ view. length view.args ≡ 2) }
{
    let mut args = Sequence::new(alloc);
    args.push(arg(alloc, one.0, 0, one.1)?)?;
    args.push(arg(alloc, other.0, other.1, other.2)?)?;
    Ok(LoopView {
        over_space: true,
        one_call: true,
        args,
        apart: Sequence::new(alloc),
    })
}

fn two_arguments_are_told(alloc: Global) -> Result<bool, AllocError> {
    let (write, sum, least) = (Mode::Write, Mode::Reduce(Op::Sum), Mode::Reduce(Op::Least));
    let mut are_well = true;
    for (one, mode, other, field, with, expected) in [
        (DISJOINT, write, DISJOINT, 0, write, None),
        (
            ALIASED,
            write,
            DISJOINT,
            0,
            write,
            Some(Reason::Interferes(0, 0)),
        ),
        (
            DISJOINT,
            write,
            ANOTHER,
            0,
            write,
            Some(Reason::Interferes(0, 1)),
        ),
        (DISJOINT, write, ANOTHER, 1, write, None),
        (
            DISJOINT,
            write,
            ALIASED,
            1,
            write,
            Some(Reason::Interferes(1, 1)),
        ),
        (
            DISJOINT,
            write,
            ArgKind::Fixed,
            0,
            Mode::Read,
            Some(Reason::Interferes(0, 1)),
        ),
        (ArgKind::Fixed, sum, ArgKind::Fixed, 0, sum, None),
        (
            ArgKind::Fixed,
            sum,
            ArgKind::Fixed,
            0,
            least,
            Some(Reason::Interferes(0, 1)),
        ),
        (
            ALIASED,
            write,
            ArgKind::Other,
            0,
            write,
            Some(Reason::Argument(1)),
        ),
    ] {
        let view = view_of(alloc, (one, mode), (other, field, with))?;
        let shape = match expected {
            Some(reason) => LaunchShape::Plain(reason),
            None => LaunchShape::Launch,
        };
        are_well = are_well && launch_shape(&view) == shape;
    }
    Ok(are_well)
}

fn loops_are_told(alloc: Global) -> Result<bool, AllocError> {
    let mut are_well = true;
    for (over_space, one_call, expected) in [
        (false, false, LaunchShape::Plain(Reason::NotOverSpace)),
        (true, false, LaunchShape::Plain(Reason::NotOneCall)),
        (true, true, LaunchShape::Launch),
    ] {
        let mut view = view_of(alloc, (DISJOINT, Mode::Write), (ANOTHER, 0, Mode::Write))?;
        view.apart.push((1, 0))?;
        view.over_space = over_space;
        view.one_call = one_call;
        are_well = are_well && launch_shape(&view) == expected;
    }
    Ok(are_well)
}

#[test]
fn shapes_with_memory_at_hand(rt: HostRuntime) -> Result<(), Fail> {
    assert!(rt; two_arguments_are_told(rt.alloc())?);
    assert!(rt; loops_are_told(rt.alloc())?);
    Ok(())
}

/// Whether a launch with these arguments makes so many calls, and the one at a place has these.
fn are_listed(
    alloc: Global,
    count: u32,
    args: &[LaunchArg],
    place: usize,
    expected: &[PointArg],
) -> Result<bool, AllocError> {
    let calls = points_of(alloc, count, args)?;
    let Some(call) = calls.get(place) else {
        return Ok(count == 0 && calls.is_empty());
    };
    Ok(calls.len() == count as usize && call.as_slice() == expected)
}

#[test]
fn calls_with_memory_at_hand(rt: HostRuntime) -> Result<(), Fail> {
    let pair = [LaunchArg::Child(0), LaunchArg::Keep(2)];
    let first = [PointArg::Child { slot: 0, colour: 0 }, PointArg::Keep(2)];
    let second = [PointArg::Child { slot: 0, colour: 1 }, PointArg::Keep(2)];
    let many = [LaunchArg::Point, LaunchArg::Number(-7)];
    let last = [PointArg::Number(65_535), PointArg::Number(-7)];
    let rows: [(u32, &[LaunchArg], usize, &[PointArg]); 4] = [
        (2, &pair, 0, &first),
        (2, &pair, 1, &second),
        (65_536, &many, 65_535, &last),
        (0, &[LaunchArg::Point], 0, &[]),
    ];
    for (count, args, place, expected) in rows {
        assert!(rt;
            are_listed(rt.alloc(), count, args, place, expected)?,
            "{count} {place}"
        );
    }
    Ok(())
}
