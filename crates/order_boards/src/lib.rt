//! Boards and the run of a job in order: the run by numbers of which the laws of boards speak is the one that the
//! machine's definition gives.
//!
//! What is said stands under specs/. Each function has an empty body; its contract is a law.
#![tactic(auto)]

ghost use Rattle.order_boards.specs.Example.{BothAreBroken, FirstRootHolds};
ghost use Rattle.order_boards.specs.Jobs.{BoardsAgree};
ghost use Rattle.order_boards.specs.Laws.{OrderRunsAgree};
ghost use Rattle.order_boards.specs.Settled.{SettledBoardsAgree};

/// Of each job that isn't void, compiled or not: the machine's run in order has the text, the root images, and the
/// fault or Broken of the run by numbers.
#[tactic(auto, using(crate::proofs::Jobs::order_runs_agree))]
pub fn order_runs_agree()
    ensures { OrderRunsAgree }
{}

/// Of every job, compiled or not, and whatever steps the seats of its board make: once the board is finished it has
/// the outcome of the machine's run in order; a void job is Broken from the beginning.
pub fn boards_agree()
    ensures { BoardsAgree }
{}

/// Where a fault comes before all that isn't over, the machine's run in order ends at it.
pub fn settled_boards_agree()
    ensures { SettledBoardsAgree }
{}

/// A job with a root and a child, and one whose child needs an empty region alone: the machine's run in order has the
/// outcome of the run by numbers.
pub fn small_jobs()
    ensures root { FirstRootHolds }
    ensures empty_need { BothAreBroken }
{}
