//! Values of children that came back.

ghost use Rattle.std.specs.Prelude.{◌≡◌, ◌++◌, ◌∷◌, [], IfOk, OnOk, filter};
ghost use Rattle.plain_run.specs.declared.answers.Answer.{Answer as answer};
ghost use Rattle.plain_run.specs.Answers.{may_ask, pendings};

use machine_terms::{Frame, Stack, Value};
use std::alloc::{AllocError, Global};
use std::marker::Model;

/// How many answers are kept at least before some are let go.
const FEW: usize = 64;

/// The value of a child that came back.
#[derive(Drop)]
pub struct Answer {
    child: u64,
    number: i64,
}

/// Values of the children of an instance, of which those are let go from time to time that its frame can't ask for any
/// more, so that they take room by the values that a frame holds and not by the calls that it made.
#[derive(Drop)]
pub struct Answers {
    kept: Vec<Answer>,
    count: u64,
    limit: usize,
}

impl Model for Answers {
    ghost use Rattle.plain_run.specs.Answers.{KeptAnswers};

    ghost Value = { KeptAnswers };

    ghost view = { λ a. record { kept = a.kept.items; count = a.count } };
}

impl Answers {
    ghost use Rattle.std.specs.Prelude.{◌≡◌, [], OnOk};
    ghost use Rattle.plain_run.specs.Answers.{LetGo, answer_in, with_numbers};

    /// Those of an instance that has called no child.
    pub fn new(alloc: Global) -> Answers
        ensures { result ≡ record { kept = []; count = 0 } }
    {
        Answers {
            kept: Vec::new(alloc),
            count: 0,
            limit: FEW,
        }
    }

    /// The value of a child; 0 where none is kept.
    pub fn number(&self, child: u64) -> i64
        ensures { result ≡ answer_in self.now.kept child }
    {
        for answer in &self.kept {
            if answer.child == child {
                return answer.number;
            }
        }
        0
    }

    /// Takes the values of more children, that came back one after another.
    pub fn take(&mut self, numbers: &[i64]) -> Result<(), AllocError>
        ensures { OnOk result (self.new ≡ with_numbers numbers.now self.old) }
    {
        for number in numbers {
            let child = self.count;
            self.count = child.checked_add(1).ok_or(AllocError)?;
            self.kept.push(Answer {
                child,
                number: *number,
            })?;
        }
        Ok(())
    }

    /// Lets those go that a frame can't ask for, where many are kept.
    pub fn let_go(&mut self, frame: &Frame) -> Result<(), AllocError>
        ensures { OnOk result (LetGo self.old self.new frame.now) }
    {
        if self.kept.len() < self.limit {
            return Ok(());
        }
        let pending = pending_in(*self.kept.allocator(), frame)?;
        keep_asked(&mut self.kept, frame.children, pending.as_slice());
        self.limit = self.kept.len().saturating_add(FEW);
        Ok(())
    }
}

/// Keeps those for which a frame may ask that has called so many children and holds these as pending.
fn keep_asked(kept: &mut Vec<Answer>, children: u64, pending: &[u64])
    ensures { kept.new.items ≡ filter (λ (x : answer). may_ask children pending.now x.child) kept.old.items }
{
    kept.retain(|answer| may_ask(children, pending, answer.child));
}

/// Whether a frame may ask for a child that has called so many and holds these as pending.
fn may_ask(children: u64, pending: &[u64], child: u64) -> bool
    ensures { result ≡ may_ask children pending.now child }
{
    children <= child || pending.contains(&child)
}

/// The children that a frame holds as pending.
fn pending_in(alloc: Global, frame: &Frame) -> Result<Vec<u64>, AllocError>
    ensures { IfOk result (λ v. v.items ≡ pendings frame.now.slots ++ pendings frame.now.stack) }
{
    let Frame { slots, stack, .. } = frame.copy(alloc)?;
    let mut pending = Vec::new(alloc);
    note_all(slots.as_slice(), &mut pending)?;
    note_stacked(stack, &mut pending)?;
    Ok(pending)
}

/// Notes those that are among values.
fn note_all(values: &[Value], pending: &mut Vec<u64>) -> Result<(), AllocError>
    ensures { OnOk result (pending.new.items ≡ pending.old.items ++ pendings values.now) }
{
    for value in values {
        note_pending(value, pending)?;
    }
    Ok(())
}

/// Notes those that a stack holds.
fn note_stacked(stack: Stack, pending: &mut Vec<u64>) -> Result<(), AllocError>
    ensures { OnOk result (pending.new.items ≡ pending.old.items ++ pendings stack) }
{
    let mut rest = stack;
    while let Some(value) = rest.pop() {
        note_pending(&value, pending)?;
    }
    Ok(())
}

/// Notes a value's child, if the value is pending.
fn note_pending(value: &Value, pending: &mut Vec<u64>) -> Result<(), AllocError>
    ensures { OnOk result (pending.new.items ≡ pending.old.items ++ pendings (value.now ∷ [])) }
{
    if let Value::Pending(child) = value {
        pending.push(*child)?;
    }
    Ok(())
}
