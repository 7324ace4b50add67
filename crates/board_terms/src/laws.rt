//! A board that is computed. The function has an empty body; its contract is what comes out.

ghost use Rattle.board_terms.specs.Example.{FirstFaultDecides, MayNotBegin, NoResultBefore, OthersMayNot, WaitingIsDropped};

/// Whichever of two tasks that fault is given back first, the outcome is that of the one which was called first. On one
/// region the second waits for the first, and is dropped when that fails.
#[tactic(auto, using(crate::proofs::Example::first_fault_decides, crate::proofs::Example::no_result_before, crate::proofs::Example::others_may_not, crate::proofs::Example::may_not_begin, crate::proofs::Example::waiting_is_dropped))]
pub fn example_comes_out()
    ensures outcome { FirstFaultDecides }
    ensures before { NoResultBefore }
    ensures others { OthersMayNot }
    ensures waits { MayNotBegin }
    ensures dropped { WaitingIsDropped }
{}
