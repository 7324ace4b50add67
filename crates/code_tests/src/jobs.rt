//! Jobs that are copied, and jobs that differ in one part each.

use lane_kernels::Width;
use plain_values::{Sequence, Shared};
use std::alloc::{AllocError, Global};
use std::process::Abort;
use std::test::Fail;
use task_code::{Code, Instr, Job, Line, PrintPart, TaskCode};

/// A text and a number behind it.
fn parts(alloc: Global, text: &[u8]) -> Result<Sequence<PrintPart>, AllocError> {
    let text = PrintPart::Text(Sequence::from_slice(alloc, text)?);
    Ok(Sequence::from_vec(vec![in alloc; text, PrintPart::Number]?))
}

/// An instruction of line 2.
fn line(instr: Instr) -> Line {
    Line { instr, line: 2 }
}

/// A task that prints a text and its parameter plus a number.
fn printing(alloc: Global, text: &[u8], number: i64) -> Result<TaskCode, AllocError> {
    let parts = parts(alloc, text)?;
    let body = vec![in alloc;
        line(Instr::Load(0)),
        line(Instr::Num(number)),
        line(Instr::Add(Width::W64)),
        line(Instr::Print(parts)),
        line(Instr::Return),
    ]?;
    Ok(TaskCode {
        params: 1,
        result: false,
        needs: Sequence::new(alloc),
        slots: 1,
        body: Sequence::from_vec(body),
    })
}

/// The code of that one task.
fn code_of(alloc: Global, text: &[u8], number: i64) -> Result<Shared<Code>, AllocError> {
    let task = printing(alloc, text, number)?;
    let tasks = Sequence::from_vec(vec![in alloc; task]?);
    Shared::new(
        alloc,
        Code {
            tasks,
            spaces: Sequence::new(alloc),
            start: 0,
        },
    )
}

/// A job of that code.
fn job_of(
    alloc: Global,
    text: &[u8],
    number: i64,
    input: i64,
    turns: u64,
) -> Result<Job, AllocError> {
    let inputs = Sequence::from_slice(alloc, &[input])?;
    Ok(Job {
        code: code_of(alloc, text, number)?,
        inputs,
        turns,
    })
}

/// Whether each of two jobs is the same as the other one.
fn are_same(one: &Job, other: &Job) -> bool {
    one.same(other) && other.same(one)
}

#[test]
fn copies_are_the_same(rt: HostRuntime) -> Result<(), Fail> {
    let job = job_of(rt.alloc(), b"sum ", 3, -5, 100)?;
    let copy = job.copy()?;
    assert!(rt; are_same(&job, &copy));
    Ok(())
}

/// The parts of jobs, and whether each is the same as one of `sum `, 3, -5 and 100.
static ROWS: [(&str, i64, i64, u64, bool); 5] = [
    ("sum ", 3, -5, 100, true),
    ("sum:", 3, -5, 100, false),
    ("sum ", 4, -5, 100, false),
    ("sum ", 3, 5, 100, false),
    ("sum ", 3, -5, 101, false),
];

/// Whether a job made from these is the same as this one, and as itself.
fn compared(
    alloc: Global,
    job: &Job,
    text: &str,
    numbers: (i64, i64, u64),
) -> Result<(bool, bool), AllocError> {
    let (number, input, turns) = numbers;
    let other = job_of(alloc, text.as_bytes(), number, input, turns)?;
    Ok((job.same(&other), other.same(&other)))
}

/// Each row is the same as this job or not, and the same as itself.
fn assert_each(rt: &impl Abort, alloc: Global, job: &Job) -> Result<(), Fail> {
    for (text, number, input, turns, same) in &ROWS {
        let found = compared(alloc, job, text, (*number, *input, *turns))?;
        assert_eq!(rt; found, (*same, true), "{text}, {number}, {input}, {turns}");
    }
    Ok(())
}

#[test]
fn jobs_made_alike_are_the_same_and_others_are_not(rt: HostRuntime) -> Result<(), Fail> {
    let job = job_of(rt.alloc(), b"sum ", 3, -5, 100)?;
    assert_each(&rt, rt.alloc(), &job)
}
