//! How a job ran.

ghost use Rattle.std.specs.Prelude.{◌≡◌, IfOk};
ghost use Rattle.std.specs.Option.{option_copied};
ghost use Rattle.parallel_run.specs.Runs.{outcome_of, trace_of};

use regent_tree::Outcome;
use run_journal::journal_text;
use std::alloc::{AllocError, Global};
use worker_run::Board;

/// How a job ran to its end.
#[derive(Drop)]
pub enum Ran {
    /// In order, as no worker was asked for.
    InOrder(Outcome),
    /// By workers, on this board.
    ByWorkers(Board),
    /// In order, as the board of the workers was of another job.
    OtherJob(Outcome),
    /// In order, as the board of the workers has no result: each of them ran out of memory.
    NoResult(Outcome),
}

impl Ran {
    /// What the run came to. A run that `run_job` gives has an outcome.
    pub fn outcome(&self) -> Option<&Outcome>
        ensures { option_copied result ≡ outcome_of self.now }
    {
        match self {
            Ran::InOrder(outcome) | Ran::OtherJob(outcome) | Ran::NoResult(outcome) => Some(
                outcome,
            ),
            Ran::ByWorkers(board) => board.result(),
        }
    }

    /// What tells how it ran: the journal's lines, or one line that says why it ran in order.
    pub fn trace_text(&self, alloc: Global) -> Result<Vec<u8>, AllocError>
        ensures { IfOk result (λ text. text.items ≡ trace_of self.now) }
    {
        match self {
            Ran::InOrder(_) => Vec::from_slice(alloc, b"in order\n"),
            Ran::ByWorkers(board) => journal_text(alloc, board.journal()),
            Ran::OtherJob(_) => Vec::from_slice(alloc, b"in order: other job\n"),
            Ran::NoResult(_) => Vec::from_slice(alloc, b"in order: no result\n"),
        }
    }
}
