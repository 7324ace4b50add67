//! Jobs with a main that is one of a list, and a task that does nothing.

use plain_values::{Sequence, Shared};
use std::alloc::{AllocError, Global};
use task_code::{Code, Instr, Job, Line, PrintPart, TaskCode};

/// What the main of a job does.
#[derive(Clone, Copy)]
pub enum Main {
    /// It calls the task so many times.
    Calls(u32),
    /// It awaits the task, which gives no value, and prints what that gave.
    Prints,
    /// It has a parameter, for which the job has no input.
    Void,
}

/// An instruction of a task.
#[derive(Clone, Copy)]
enum Step {
    Call,
    Drop,
    Store,
    Load,
    Print,
    Return,
}

/// What a main does that awaits the task and prints what it gave.
static PRINTS: [Step; 5] = [
    Step::Call,
    Step::Store,
    Step::Load,
    Step::Print,
    Step::Return,
];

impl Main {
    fn params(self) -> u8 {
        match self {
            Main::Void => 1,
            Main::Calls(_) | Main::Prints => 0,
        }
    }

    /// How many calls it makes whose values are dropped.
    fn calls(self) -> u32 {
        match self {
            Main::Calls(calls) => calls,
            Main::Prints | Main::Void => 0,
        }
    }
}

/// Prints a number.
fn print(alloc: Global) -> Result<Instr, AllocError> {
    let parts = vec![in alloc; PrintPart::Number]?;
    Ok(Instr::Print(Sequence::from_vec(parts)))
}

fn instr(alloc: Global, step: Step) -> Result<Instr, AllocError> {
    match step {
        Step::Call => Ok(Instr::Call(1, 0)),
        Step::Drop => Ok(Instr::Drop),
        Step::Store => Ok(Instr::Store(0)),
        Step::Load => Ok(Instr::Load(0)),
        Step::Print => print(alloc),
        Step::Return => Ok(Instr::Return),
    }
}

fn add_instr(
    body: &mut Sequence<Line>,
    instr: Result<Instr, AllocError>,
) -> Result<(), AllocError> {
    body.push(Line {
        instr: instr?,
        line: 1,
    })
}

fn add_steps(alloc: Global, body: &mut Sequence<Line>, steps: &[Step]) -> Result<(), AllocError> {
    for step in steps {
        add_instr(body, instr(alloc, *step))?;
    }
    Ok(())
}

fn add_calls(alloc: Global, body: &mut Sequence<Line>, calls: u32) -> Result<(), AllocError> {
    for _ in 0..calls {
        add_steps(alloc, body, &[Step::Call, Step::Drop])?;
    }
    Ok(())
}

/// Adds what a main does after the calls whose values it drops.
fn add_end(alloc: Global, body: &mut Sequence<Line>, main: Main) -> Result<(), AllocError> {
    match main {
        Main::Prints => add_steps(alloc, body, &PRINTS),
        Main::Calls(_) | Main::Void => add_steps(alloc, body, &[Step::Return]),
    }
}

/// The instructions of a main.
fn body(alloc: Global, main: Main) -> Result<Sequence<Line>, AllocError> {
    let mut body = Sequence::new(alloc);
    add_calls(alloc, &mut body, main.calls())?;
    add_end(alloc, &mut body, main)?;
    Ok(body)
}

fn add_task(alloc: Global, tasks: &mut Sequence<TaskCode>, main: Main) -> Result<(), AllocError> {
    let body = body(alloc, main)?;
    tasks.push(TaskCode {
        params: main.params(),
        result: false,
        needs: Sequence::new(alloc),
        slots: 4,
        body,
    })
}

/// A main, and a task that does nothing.
fn tasks(alloc: Global, main: Main) -> Result<Sequence<TaskCode>, AllocError> {
    let mut tasks = Sequence::new(alloc);
    add_task(alloc, &mut tasks, main)?;
    add_task(alloc, &mut tasks, Main::Calls(0))?;
    Ok(tasks)
}

fn code(alloc: Global, main: Main) -> Result<Code, AllocError> {
    Ok(Code {
        tasks: tasks(alloc, main)?,
        spaces: Sequence::new(alloc),
        start: 0,
    })
}

/// A job with this main.
pub fn job(alloc: Global, main: Main) -> Result<Job, AllocError> {
    Ok(Job {
        code: Shared::new(alloc, code(alloc, main)?)?,
        inputs: Sequence::new(alloc),
        turns: 1_000,
    })
}
