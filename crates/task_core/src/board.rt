//! Boards.

ghost use Rattle.std.specs.Prelude.{◌≡◌, ◌↔◌, ℕ, cond, false, None, Some, IfOk};
ghost use Rattle.machine_terms.specs.Jobs.{order_run};
ghost use Rattle.board_terms.specs.Outcomes.{result as result_of};
ghost use Rattle.board_terms.specs.Replays.{replay};
ghost use Rattle.board_terms.specs.Stages.{all_in_progress, has_finished, may_be_claimed};
ghost use Rattle.std.specs.Option.{option_copied};

use board_state::BoardState;
use regent_tree::{Outcome, RootImage};
use region_tree::OpNumber;
use run_journal::Entry;
use std::alloc::AllocError;
use std::marker::Model;
use task_code::Job;

/// The state that one lock keeps, with the job, and the journal of the steps that were made. Its type keeps that the
/// state is what the journal leads to for the job. Until there is an outcome the memory for it is kept: as much text as
/// operations said, and an image for each of main's own roots.
#[derive(Drop)]
pub struct Board {
    pub(crate) job: Job,
    pub(crate) journal: Vec<Entry>,
    pub(crate) state: BoardState,
    pub(crate) outcome: Option<Outcome>,
    pub(crate) owed: usize,
    pub(crate) said: usize,
    pub(crate) text: Vec<u8>,
    pub(crate) images: Vec<RootImage>,
}

impl Model for Board {
    ghost use Rattle.std.specs.Prelude.{vec_capacity, vec_len};
    ghost use Rattle.task_core.specs.Boards.{HasRoom, IsBoard, Standing};
    ghost use Rattle.task_core.specs.Rooms.{IsReady};

    ghost Value = { Standing };

    ghost view = { λ b. record { job = b.job; journal = b.journal.items; state = b.state } };

    ghost invariant = { λ b. IsBoard b.job b.journal.items b.state b.outcome b.owed
        × (HasRoom (vec_len b.journal) b.owed (vec_capacity b.journal)
        × IsReady b.outcome b.state b.said b.text.items (vec_capacity b.text) b.images.items) };
}

impl Board {
    /// The steps that were made, in order. The state is what they lead to for the job.
    pub fn journal(&self) -> &[Entry]
        ensures journal { result.now ≡ self.now.journal }
        ensures replayed { replay self.now.job self.now.journal ≡ Some self.now.state }
    {
        self.journal.as_slice()
    }

    /// The job.
    pub fn job(&self) -> &Job
        ensures { result.now ≡ self.now.job }
    {
        &self.job
    }

    /// What the board comes to, exactly where no operation is left that isn't over: the outcome of the job's run in order,
    /// whatever steps were made and in whatever order.
    pub fn result(&self) -> Option<&Outcome>
        ensures told { option_copied result ≡ result_of self.now.state }
        ensures ordered { option_copied result ≡ cond (has_finished self.now.state) (Some (order_run self.now.job)) None }
    {
        self.outcome.as_ref()
    }

    /// Whether some operation is ready.
    pub fn has_ready(&self) -> bool
        ensures { (result ≡ false) ↔ ((k : ℕ) → may_be_claimed self.now.state k ≡ false) }
    {
        self.state.first_ready().is_some()
    }

    /// The operations that have begun and aren't over, in rising order.
    pub fn in_progress(&self) -> Result<Vec<OpNumber>, AllocError>
        ensures { IfOk result (λ v. v.items ≡ all_in_progress self.now.state) }
    {
        self.state.in_progress()
    }
}
