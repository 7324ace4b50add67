//! Two small machines to which the laws of boards apply, and boards of theirs that are computed.
#![tactic(auto)]

ghost use Rattle.board_rules.specs.Apart.{FilledFromMap, HeldApart, InProgressApart};
ghost use Rattle.board_rules.specs.Backs.{TakenBack};
ghost use Rattle.board_rules.specs.ByNumber.{FinishedByNumber};
ghost use Rattle.board_rules.specs.Journals.{FinishedAsOrdered};
ghost use Rattle.board_rules.specs.Ready.{SomeReady};
ghost use Rattle.board_examples.specs.Faults.{first_fault_by_place, main_is_stopped, third_is_dropped};
ghost use Rattle.board_examples.specs.Numbers.{roots_by_schedule};
ghost use Rattle.board_examples.specs.Schedules.{children_out_of_order, other_operator_waits, reductions_in_any_order};
ghost use Rattle.small_machines.specs.NumberedMachines.{IsJob, base, by_name, by_number, naming, numbering, rename};
ghost use Rattle.small_machines.specs.Small.{small_ground, small_machine};

use board_rules::{NumberedMachine, OrderedMachine};

/// Programs of a few instructions, over roots that are named by who made them.
pub struct SmallMachine;

impl OrderedMachine for SmallMachine {
    ghost use Rattle.small_machines.proofs.SmallLaws.{small_laws};

    ghost terms = { small_ground };

    ghost machine = { small_machine };

    ghost laws = { small_laws };
}

/// The same over roots that are numbers.
pub struct CountingMachine;

impl NumberedMachine for CountingMachine {
    ghost use Rattle.small_machines.proofs.NumberedBoards.{naming_laws, renamable};

    ghost base = { base };

    ghost numbered = { by_number };

    ghost named = { by_name };

    ghost machines = { numbering };

    ghost naming = { naming };

    ghost rename = { rename };

    ghost is_job = { IsJob };

    ghost laws = { naming_laws };

    ghost renamable = { renamable };
}

/// The laws hold of the boards of the small machine.
pub fn small_boards()
    ensures ordered { FinishedAsOrdered small_ground small_machine }
    ensures apart { InProgressApart small_ground small_machine }
    ensures held { HeldApart small_ground small_machine }
    ensures filled { FilledFromMap small_ground small_machine }
    ensures ready { SomeReady small_ground small_machine }
    ensures back { TakenBack small_ground small_machine }
{
    board_laws::finished_as_ordered::<SmallMachine>();
    board_laws::in_progress_apart::<SmallMachine>();
    board_laws::held_apart::<SmallMachine>();
    board_laws::filled_from_map::<SmallMachine>();
    board_laws::some_ready::<SmallMachine>();
    board_laws::taken_back::<SmallMachine>();
}

/// A finished board has the outcome of the run in order, by numbers.
pub fn counted_boards()
    ensures { FinishedByNumber base by_number by_name numbering naming rename IsJob }
{
    number_laws::finished_by_number::<CountingMachine>();
}

/// Boards that are computed: what they come to, and what the run in order comes to.
pub fn schedules()
    ensures children { children_out_of_order }
    ensures reductions { reductions_in_any_order }
    ensures other_operator { other_operator_waits }
{}

/// Faults in another order than by place, with what waits for what failed.
pub fn faults()
    ensures first { first_fault_by_place }
    ensures dropped { third_is_dropped }
    ensures stopped { main_is_stopped }
{}

/// One text on two schedules that number the roots differently.
pub fn numbers()
    ensures { roots_by_schedule }
{}
