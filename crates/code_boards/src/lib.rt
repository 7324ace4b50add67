//! Boards over the segments of a code: the machine, as the laws of boards see it, keeps what they ask of it. So
//! whatever steps the seats of a board make, it keeps the order of the program.
//!
//! What is said stands under specs/. Each function has an empty body; its contract is a law.
#![tactic(auto)]

ghost use Rattle.code_boards.specs.Example.{BoardPrints, EmptyNeedBreaks, OrderPrints};
ghost use Rattle.code_boards.specs.Laws.{BoardsFinishInOrder, BoardsKeepOrder, ElementsAreParts, JobsFinishInOrder, JobsSettleInOrder, OrderRunsEnd};
ghost use Rattle.code_boards.specs.Pieces.{PiecesRegroup};

/// Of each code: a finished board has the outcome of the run in order, operations in progress don't interfere, a
/// board without claims that isn't finished has a ready operation, and what is held and filled is as it should be.
pub fn boards_keep_order()
    ensures { BoardsKeepOrder }
{}

/// Of each code, with operations, seats and roots by numbers: a finished board has the outcome of the run in order.
pub fn boards_finish_in_order()
    ensures { BoardsFinishInOrder }
{}

/// What the board sees as elements, the machine has as parts, in order.
pub fn elements_are_parts()
    ensures elements { ElementsAreParts }
    ensures pieces { PiecesRegroup }
{}

/// The run in order of a job ends within a number of segments that its code and its turns tell.
pub fn order_runs_end()
    ensures { OrderRunsEnd }
{}

/// Of each job, compiled or not, and whatever steps the seats make: a finished board has the outcome of the run in
/// order.
pub fn jobs_finish_in_order()
    ensures { JobsFinishInOrder }
{}

/// Of each job, too: where a fault comes before all that isn't over, the run in order ends at it.
pub fn jobs_settle_in_order()
    ensures { JobsSettleInOrder }
{}

/// A job with a root and a child, run in order and on a board of three seats; and one whose child needs an empty
/// region alone and reads another one of the same root.
pub fn small_jobs()
    ensures order { OrderPrints }
    ensures board { BoardPrints }
    ensures empty_need { EmptyNeedBreaks }
{}
