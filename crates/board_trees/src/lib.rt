//! A board's table of operations, read as the tree of operations of the boards' laws.
//!
//! What is said stands under specs/. Each function has an empty body; its contract is a law.
#![tactic(auto)]

ghost use Rattle.board_trees.specs.Laws.{NewBoardsShow};
ghost use Rattle.board_trees.specs.Places.{PlacedIsHere, PlacesStay};
ghost use Rattle.board_trees.specs.Told.{ShownIsSettled, WaitsAreTold};

/// The board of a job that isn't void shows the tree's beginning.
#[tactic(auto, using(crate::proofs::Beginning::new_boards_show))]
pub fn new_boards_show()
    ensures { NewBoardsShow }
{}

/// What the graph waits for among siblings in order tells whether all that interferes has ended, and whether some of it has
/// failed.
#[tactic(auto, using(crate::proofs::Told::waits_are_told))]
pub fn waits_are_told()
    ensures { WaitsAreTold }
{}

/// What shows is settled, so that the tree is the same behind a step which changes nothing but the stage of an operation
/// that goes on.
pub fn shown_is_settled()
    ensures { ShownIsSettled }
{}

/// Where the regions of a frame are those of the tree of regions, so are those of what a segment leaves and hands over; such
/// a region passes the table's test, and has the tree's points.
pub fn places_stay()
    ensures stay { PlacesStay }
    ensures here { PlacedIsHere }
{}
