//! Jobs by hand, with memory at hand.

ghost use Rattle.std.specs.Prelude.{◌<◌};

use lane_kernels::{FieldKind, Mode, Op, Width};
use plain_run::run_in_order;
use plain_values::{Sequence, Shared};
use regent_tree::{Ending, Outcome, RootImage};
use std::alloc::{AllocError, Global};
use std::test::Fail;
use task_code::{Code, FieldCode, Instr, Job, Line, NeedCode, PrintPart, SpaceCode, TaskCode};

/// The instructions, on the lines from 1.
pub fn lines<const N: usize>(alloc: Global, body: [Instr; N]) -> Result<Sequence<Line>, AllocError>
    requires { N < 1000 }
{
    let mut lines = Sequence::new(alloc);
    let mut line: u32 = 0;
    for instr in body {
        line = line.saturating_add(1);
        lines.push(Line { instr, line })?;
    }
    Ok(lines)
}

/// A task with this body, and with two slots.
fn task(
    alloc: Global,
    params: u8,
    needs: &[NeedCode],
    body: Sequence<Line>,
) -> Result<TaskCode, AllocError> {
    Ok(TaskCode {
        params,
        result: false,
        needs: Sequence::from_slice(alloc, needs)?,
        slots: 2,
        body,
    })
}

/// A field of 64 bits.
fn fields(alloc: Global) -> Result<Sequence<FieldCode>, AllocError> {
    let name = Sequence::from_slice(alloc, b"x")?;
    let kind = FieldKind::Int64;
    Ok(Sequence::from_vec(vec![in alloc; FieldCode { name, kind }]?))
}

/// One field space, of a field of 64 bits.
fn spaces(alloc: Global) -> Result<Sequence<SpaceCode>, AllocError> {
    let fields = fields(alloc)?;
    let name = Sequence::from_slice(alloc, b"f")?;
    Ok(Sequence::from_vec(vec![in alloc; SpaceCode { name, fields }]?))
}

/// The code of these tasks.
fn code(alloc: Global, tasks: Sequence<TaskCode>) -> Result<Shared<Code>, AllocError> {
    let spaces = spaces(alloc)?;
    Shared::new(
        alloc,
        Code {
            tasks,
            spaces,
            start: 0,
        },
    )
}

/// What a job of these tasks comes to.
fn outcome_of(
    alloc: Global,
    tasks: Sequence<TaskCode>,
    inputs: &[i64],
) -> Result<Outcome, AllocError> {
    let code = code(alloc, tasks)?;
    let inputs = Sequence::from_slice(alloc, inputs)?;
    let job = Job {
        code,
        inputs,
        turns: 10,
    };
    run_in_order(alloc, &job)
}

/// Pops a number and prints it on a line of its own.
fn print(alloc: Global) -> Result<Instr, AllocError> {
    let end = PrintPart::Text(Sequence::from_slice(alloc, b"\n")?);
    let parts = vec![in alloc; PrintPart::Number, end]?;
    Ok(Instr::Print(Sequence::from_vec(parts)))
}

/// The region of the first slot.
fn first(alloc: Global) -> Result<Sequence<u32>, AllocError> {
    Sequence::from_slice(alloc, &[0])
}

const WRITING: NeedCode = NeedCode {
    param: 0,
    field: 0,
    mode: Mode::Write,
};

/// A task that makes a root of three points and calls the next task with it; then it prints what stands
/// at point 1.
fn caller(alloc: Global) -> Result<TaskCode, AllocError> {
    let read = first(alloc)?;
    let number = print(alloc)?;
    let body = lines(
        alloc,
        [
            Instr::Num(3),
            Instr::Space,
            Instr::NewRoot(0),
            Instr::Store(0),
            Instr::Load(0),
            Instr::Call(1, 1),
            Instr::Drop,
            Instr::Num(1),
            Instr::At(0),
            Instr::Read(read, 0),
            number,
            Instr::Return,
        ],
    )?;
    task(alloc, 0, &[], body)
}

/// A task that writes 7 at point 1 of the region that it is given.
fn writer(alloc: Global) -> Result<TaskCode, AllocError> {
    let written = first(alloc)?;
    let body = lines(
        alloc,
        [
            Instr::Num(7),
            Instr::Num(1),
            Instr::At(0),
            Instr::Write(written, 0, Width::W64),
            Instr::Return,
        ],
    )?;
    task(alloc, 1, &[WRITING], body)
}

/// A task without a statement.
fn only_task(alloc: Global) -> Result<Sequence<TaskCode>, AllocError> {
    let body = lines(alloc, [Instr::Return])?;
    let task = task(alloc, 0, &[], body)?;
    Ok(Sequence::from_vec(vec![in alloc; task]?))
}

/// Whether an outcome has this text, and ended so.
fn is_outcome(outcome: &Outcome, text: &[u8], ending: &Ending) -> bool {
    outcome.text.as_slice() == text && outcome.ending == *ending
}

/// A task without a statement is finished, with no text and no roots.
#[test]
fn empty_task(rt: HostRuntime) -> Result<(), Fail> {
    let alloc = rt.alloc();
    let outcome = outcome_of(alloc, only_task(alloc)?, &[])?;
    let ending = Ending::Finished(Sequence::new(alloc));
    assert!(rt; is_outcome(&outcome, b"", &ending));
    Ok(())
}

/// A job that has an input for no parameter is void.
#[test]
fn void_job(rt: HostRuntime) -> Result<(), Fail> {
    let alloc = rt.alloc();
    let outcome = outcome_of(alloc, only_task(alloc)?, &[4])?;
    assert!(rt; is_outcome(&outcome, b"", &Ending::Broken));
    Ok(())
}

/// The caller and the writer.
fn called(alloc: Global) -> Result<Sequence<TaskCode>, AllocError> {
    let caller = caller(alloc)?;
    let writer = writer(alloc)?;
    Ok(Sequence::from_vec(vec![in alloc; caller, writer]?))
}

/// A root of three points, of which one was written.
fn written_root(alloc: Global) -> Result<Sequence<RootImage>, AllocError> {
    let column = Sequence::from_slice(alloc, &[0, 7, 0])?;
    let root = RootImage {
        space: 0,
        count: 3,
        fields: Sequence::from_vec(vec![in alloc; column]?),
    };
    Ok(Sequence::from_vec(vec![in alloc; root]?))
}

/// What a called task wrote stands in the root behind the call.
#[test]
fn called_task_writes(rt: HostRuntime) -> Result<(), Fail> {
    let alloc = rt.alloc();
    let ending = Ending::Finished(written_root(alloc)?);
    let outcome = outcome_of(alloc, called(alloc)?, &[])?;
    assert!(rt; is_outcome(&outcome, b"7\n", &ending));
    Ok(())
}

const FOLDING: NeedCode = NeedCode {
    param: 0,
    field: 0,
    mode: Mode::Reduce(Op::Sum),
};

/// A task that adds 4 at point 1 of the region that it is given.
fn adder(alloc: Global) -> Result<TaskCode, AllocError> {
    let folded = first(alloc)?;
    let body = lines(
        alloc,
        [
            Instr::Num(4),
            Instr::Num(1),
            Instr::At(0),
            Instr::Reduce(folded, 0, Op::Sum, Width::W64),
            Instr::Return,
        ],
    )?;
    task(alloc, 1, &[FOLDING], body)
}

/// A task that writes 5 at point 1 of a root of three points, calls the next task with the root and the
/// one behind it with the region of point 1 alone, and prints what stands there.
fn touching_caller(alloc: Global) -> Result<TaskCode, AllocError> {
    let written = first(alloc)?;
    let read = first(alloc)?;
    let number = print(alloc)?;
    let body = lines(
        alloc,
        [
            Instr::Num(3),
            Instr::Space,
            Instr::NewRoot(0),
            Instr::Store(0),
            Instr::Num(5),
            Instr::Num(1),
            Instr::At(0),
            Instr::Write(written, 0, Width::W64),
            Instr::Load(0),
            Instr::Call(1, 1),
            Instr::Drop,
            Instr::Num(3),
            Instr::Space,
            Instr::Equal(0),
            Instr::Store(1),
            Instr::Num(1),
            Instr::Child(1),
            Instr::Call(2, 1),
            Instr::Drop,
            Instr::Num(1),
            Instr::At(0),
            Instr::Read(read, 0),
            number,
            Instr::Return,
        ],
    )?;
    task(alloc, 0, &[], body)
}

/// A caller and what it calls.
fn touching(alloc: Global) -> Result<Sequence<TaskCode>, AllocError> {
    let caller = touching_caller(alloc)?;
    let whole = adder(alloc)?;
    let point = adder(alloc)?;
    Ok(Sequence::from_vec(vec![in alloc; caller, whole, point]?))
}

/// What is written goes back before a call, and what is folded behind it, over a whole root and over a
/// point of it: 5 and 4 is 9, and 4 more.
#[test]
fn parts_go_back(rt: HostRuntime) -> Result<(), Fail> {
    let alloc = rt.alloc();
    let outcome = outcome_of(alloc, touching(alloc)?, &[])?;
    assert!(rt; *outcome.text.as_slice() == *b"13\n".as_slice());
    Ok(())
}
