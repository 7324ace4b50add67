//! Jobs.

ghost use Rattle.std.specs.Prelude.{◌≡◌, ◌↔◌, IfOk, IsTrue};

use crate::code::Code;
use plain_values::{Sequence, Shared};
use std::alloc::AllocError;

/// What is to be run: code, the numbers that its first task is given, and the turns that each task
/// instance has.
#[derive(Drop)]
pub struct Job {
    pub code: Shared<Code>,
    pub inputs: Sequence<i64>,
    pub turns: u64,
}

impl Job {
    /// Whether two jobs are the same; it takes no memory. The code is compared instruction by instruction,
    /// also where both share it.
    pub fn same(&self, o: &Job) -> bool
        ensures { IsTrue result ↔ (self.now ≡ o.now) }
    {
        same_code(self.code.get(), o.code.get())
            && same_numbers(&self.inputs, &o.inputs)
            && self.turns == o.turns
    }

    /// A job that is the same. Both share the code.
    pub fn copy(&self) -> Result<Job, AllocError>
        ensures { IfOk result (λ job. job ≡ self.now) }
    {
        Ok(Job {
            code: self.code.share()?,
            inputs: self.inputs.copy()?,
            turns: self.turns,
        })
    }
}

#[tactic(auto, using(crate::proofs::Codes::code_exact))]
fn same_code(a: &Code, b: &Code) -> bool
    ensures { IsTrue result ↔ (a.now ≡ b.now) }
{
    *a == *b
}

#[tactic(auto, using(crate::proofs::Codes::numbers_exact))]
fn same_numbers(a: &Sequence<i64>, b: &Sequence<i64>) -> bool
    ensures { IsTrue result ↔ (a.now ≡ b.now) }
{
    *a == *b
}
