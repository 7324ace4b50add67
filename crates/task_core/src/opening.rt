//! Boards on which nothing was done.

ghost use Rattle.std.specs.Prelude.{◌≡◌, [], IfOk};
ghost use Rattle.regent_tree.specs.declared.outcome.Ending.TheVariants.{Broken};
ghost use Rattle.task_core.specs.Boards.{new_standing};

use crate::board::Board;
use board_state::BoardState;
use plain_values::Sequence;
use regent_tree::{Ending, Outcome};
use region_tree::OpNumber;
use std::alloc::{AllocError, Global};
use task_code::Job;

impl Board {
    /// A board of a job on which nothing was done: main is ready, or broken where the job is void.
    pub fn open(alloc: Global, job: Job) -> Result<Board, AllocError>
        ensures { IfOk result (λ b. b ≡ new_standing job) }
    {
        let state = BoardState::open(alloc, &job)?;
        let outcome = if state.is_over(OpNumber(0)) {
            Some(broken(alloc))
        } else {
            None
        };
        Ok(Board {
            job,
            journal: Vec::new(alloc),
            state,
            outcome,
            owed: 0,
            said: 0,
            text: Vec::new(alloc),
            images: Vec::new(alloc),
        })
    }
}

/// The outcome of a run that broke before it said anything.
fn broken(alloc: Global) -> Outcome
    ensures text { result.text ≡ [] }
    ensures ending { result.ending ≡ Broken }
{
    Outcome {
        text: Sequence::new(alloc),
        ending: Ending::Broken,
    }
}
