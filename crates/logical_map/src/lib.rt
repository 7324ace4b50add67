//! The logical map of the regions' contents: for each live root, field and point a number (logical regions and
//! physical instances: Legion, SC 2012).
//!
//! `specs/Maps` has the map, `specs/Gives` what parts that go back do to it, `specs/Fills` what a fill takes
//! from it, and `specs/Laws` the laws. Each function has an empty body; its contract is a law.
#![tactic(auto)]

ghost use Rattle.logical_map.specs.Laws.{AllIsMoved, ApartGivesSwap, ChunksJoin, ClosedIsGone, ClosedKeepsOthers};
ghost use Rattle.logical_map.specs.Laws.{FieldsSwap, GivenIsRead, LackedPointStays, OpenedHoldsZeros, OpenedKeepsOthers};
ghost use Rattle.logical_map.specs.Laws.{OthersStay, PointsDecide, ReductionsSwap};

/// Behind a give its points have what it makes of their numbers, and the others what they had.
#[tactic(auto, using(crate::proofs::Reading::given_is_read, crate::proofs::Reading::lacked_point_stays, crate::proofs::Reading::others_stay))]
pub fn gives_are_read()
    ensures read { GivenIsRead }
    ensures lacked { LackedPointStays }
    ensures others { OthersStay }
{}

/// Gives swap where they share no point, or reduce by one operator; changes of two fields swap.
#[tactic(auto, using(crate::proofs::Swapping::apart_gives_swap, crate::proofs::Swapping::fields_swap, crate::proofs::Swapping::reductions_swap))]
pub fn gives_swap()
    ensures apart { ApartGivesSwap }
    ensures reductions { ReductionsSwap }
    ensures fields { FieldsSwap }
{}

/// Fields that have the same number at each point are the same.
#[tactic(auto, using(crate::proofs::Deciding::points_decide))]
pub fn points_decide()
    ensures { PointsDecide }
{}

/// A new root has fields of the given kinds and holds their zeros, a closed one isn't live, and the others stay.
#[tactic(auto, using(crate::proofs::Deciding::opened_holds_zeros, crate::proofs::Deciding::opened_keeps_others, crate::proofs::Deciding::closed_is_gone, crate::proofs::Deciding::closed_keeps_others))]
pub fn roots_come_and_go()
    ensures zeros { OpenedHoldsZeros }
    ensures opened { OpenedKeepsOthers }
    ensures gone { ClosedIsGone }
    ensures closed { ClosedKeepsOthers }
{}

/// Chunks of a fill join, and when all was moved, each element has its number.
#[tactic(auto, using(crate::proofs::Filling::chunks_join, crate::proofs::Filling::all_is_moved))]
pub fn fills_are_whole()
    ensures join { ChunksJoin }
    ensures all { AllIsMoved }
{}
