//! The laws of boards, over any machine.
#![tactic(auto)]

ghost use Rattle.board_rules.specs.Apart.{FilledFromMap, HeldApart, InProgressApart};
ghost use Rattle.board_rules.specs.Backs.{TakenBack};
ghost use Rattle.board_rules.specs.Journals.{FinishedAsOrdered};
ghost use Rattle.board_rules.specs.Known.{SettledAsOrdered};
ghost use Rattle.board_rules.specs.Ready.{SomeReady};

use board_rules::OrderedMachine;

/// A finished board has the outcome of the run in order.
#[tactic(auto, using(crate::proofs::Outcomes::finished_as_ordered))]
pub fn finished_as_ordered<T: OrderedMachine>()
    ensures { FinishedAsOrdered T.terms T.machine }
{}

/// Where a fault comes before all that isn't over, the run in order ends at it.
#[tactic(auto, using(crate::proofs::KnownOutcomes::settled_as_ordered))]
pub fn settled_as_ordered<T: OrderedMachine>()
    ensures { SettledAsOrdered T.terms T.machine }
{}

/// Operations in progress, neither the other's ancestor, don't interfere.
#[tactic(auto, using(crate::proofs::Apart::in_progress_apart))]
pub fn in_progress_apart<T: OrderedMachine>()
    ensures { InProgressApart T.terms T.machine }
{}

/// A board that isn't finished and has no claim out has a ready operation.
#[tactic(auto, using(crate::proofs::Ready::some_ready))]
pub fn some_ready<T: OrderedMachine>()
    ensures { SomeReady T.terms T.machine }
{}

/// What an operation holds, and what it is being filled with, conflicts with no need of its unfinished children.
#[tactic(auto, using(crate::proofs::Held::held_apart))]
pub fn held_apart<T: OrderedMachine>()
    ensures { HeldApart T.terms T.machine }
{}

/// The elements that a claim has filled so far equal the map.
#[tactic(auto, using(crate::proofs::Held::filled_from_map))]
pub fn filled_from_map<T: OrderedMachine>()
    ensures { FilledFromMap T.terms T.machine }
{}

/// A claim that is taken back leaves the state as it was.
#[tactic(auto, using(crate::proofs::Backs::taken_back))]
pub fn taken_back<T: OrderedMachine>()
    ensures { TakenBack T.terms T.machine }
{}
