//! Worked examples: the meaning of some programs, each proved by evaluation.
//!
//! Each function has an empty body. Its contract says what its program prints, and the final
//! contents of its regions or the fault with which it ends.
#![tactic(auto)]

ghost use Rattle.worked_examples.specs.Numbers.{assignment_means, narrow_product_means, empty_task_means, signed_division_means, input_printed_means};
ghost use Rattle.worked_examples.specs.Reductions.{reducing_calls_means, wrapping_reduction_means, least_lowered_means, least_kept_means, narrow_least_means};
ghost use Rattle.worked_examples.specs.Partitions.{equal_sizes_means, sizes_by_field_means, set_operations_means, bad_colour_means};
ghost use Rattle.worked_examples.specs.Images.{preimage_of_colour_0_means, preimage_of_colour_1_means, neighbours_means};
ghost use Rattle.worked_examples.specs.SampleProgram.{sample_means};
ghost use Rattle.worked_examples.specs.Statements.{hidden_names_means, choices_means, early_stop_means, early_return_means, filled_means, false_assert_means};
ghost use Rattle.worked_examples.specs.Calls.{writes_by_parts_means, overlapping_arguments_means, call_between_means, fault_in_loop_means, first_fault_means};
ghost use Rattle.worked_examples.specs.Pointers.{null_pointer_means, outside_region_means, pointer_arithmetic_means, null_on_the_right_means, null_on_the_left_means, positions_means, circuit_means};
ghost use Rattle.worked_examples.specs.Limits.{turns_enough_means, turns_spent_means, arguments_first_means, calls_too_deep_means, greatest_space_means, space_too_large_means};
ghost use Rattle.worked_examples.specs.Regions.{siblings_means, told_late_means, unknown_child_means, cycle_means, apart_above_means, made_later_means};
ghost use Rattle.worked_examples.specs.Touches.{declared_access_means, own_root_means};

/// An assignment, and a number printed.
#[tactic(auto, using(crate::proofs::Numbers::assignment_holds))]
pub fn assignment()
    ensures { assignment_means }
{}

/// A product of two numbers of 32 bits wraps before it is widened.
#[tactic(auto, using(crate::proofs::Numbers::narrow_product_holds))]
pub fn narrow_product()
    ensures { narrow_product_means }
{}

/// A task with no statement.
#[tactic(auto, using(crate::proofs::Numbers::empty_task_holds))]
pub fn empty_task()
    ensures { empty_task_means }
{}

/// The least number divided by -1, and quotients towards zero.
#[tactic(auto, using(crate::proofs::Numbers::signed_division_holds))]
pub fn signed_division()
    ensures { signed_division_means }
{}

/// An argument of the program.
#[tactic(auto, using(crate::proofs::Numbers::input_printed_holds))]
pub fn input_printed()
    ensures { input_printed_means }
{}

/// Calls that each reduce by a sum.
#[tactic(auto, using(crate::proofs::Reductions::reducing_calls_holds))]
pub fn reducing_calls()
    ensures { reducing_calls_means }
{}

/// A sum that wraps at 64 bits.
#[tactic(auto, using(crate::proofs::Reductions::wrapping_reduction_holds))]
pub fn wrapping_reduction()
    ensures { wrapping_reduction_means }
{}

/// A minimum that is lowered twice.
#[tactic(auto, using(crate::proofs::Reductions::least_lowered_holds))]
pub fn least_lowered()
    ensures { least_lowered_means }
{}

/// A minimum that stays.
#[tactic(auto, using(crate::proofs::Reductions::least_kept_holds))]
pub fn least_kept()
    ensures { least_kept_means }
{}

/// The right side of a reduction wraps at the width of the field.
#[tactic(auto, using(crate::proofs::Reductions::narrow_least_holds))]
pub fn narrow_least()
    ensures { narrow_least_means }
{}

/// The sizes of an equal partition of ten points in four colours.
#[tactic(auto, using(crate::proofs::Partitions::equal_sizes_holds))]
pub fn equal_sizes()
    ensures { equal_sizes_means }
{}

/// The sizes of a partition by a field.
#[tactic(auto, using(crate::proofs::Partitions::sizes_by_field_holds))]
pub fn sizes_by_field()
    ensures { sizes_by_field_means }
{}

/// The colours of a meet, a difference and a union.
#[tactic(auto, using(crate::proofs::Partitions::set_operations_holds))]
pub fn set_operations()
    ensures { set_operations_means }
{}

/// A number that isn't a colour.
#[tactic(auto, using(crate::proofs::Partitions::bad_colour_holds))]
pub fn bad_colour()
    ensures { bad_colour_means }
{}

/// A preimage of an equal partition with empty colours.
#[tactic(auto, using(crate::proofs::Images::preimage_of_colour_0_holds))]
pub fn preimage_of_colour_0()
    ensures { preimage_of_colour_0_means }
{}

/// A preimage of an equal partition with empty colours.
#[tactic(auto, using(crate::proofs::Images::preimage_of_colour_1_holds))]
pub fn preimage_of_colour_1()
    ensures { preimage_of_colour_1_means }
{}

/// An image of a field, and a task that reads through it.
#[tactic(auto, using(crate::proofs::Images::neighbours_holds))]
pub fn neighbours()
    ensures { neighbours_means }
{}

/// The sample program with 64 cells in 4 colours.
#[tactic(auto, using(crate::proofs::SampleProgram::sample_holds))]
pub fn sample()
    ensures { sample_means }
{}

/// A name that hides an earlier one, in a block and after it.
#[tactic(auto, using(crate::proofs::Statements::hidden_names_holds))]
pub fn hidden_names()
    ensures { hidden_names_means }
{}

/// A loop with a test, and a choice of three.
#[tactic(auto, using(crate::proofs::Statements::choices_holds))]
pub fn choices()
    ensures { choices_means }
{}

/// A test that stops before a null pointer is used.
#[tactic(auto, using(crate::proofs::Statements::early_stop_holds))]
pub fn early_stop()
    ensures { early_stop_means }
{}

/// A task that returns out of a loop.
#[tactic(auto, using(crate::proofs::Statements::early_return_holds))]
pub fn early_return()
    ensures { early_return_means }
{}

/// A fill that wraps at the width of each field.
#[tactic(auto, using(crate::proofs::Statements::filled_holds))]
pub fn filled()
    ensures { filled_means }
{}

/// An assertion that is false.
#[tactic(auto, using(crate::proofs::Statements::false_assert_holds))]
pub fn false_assert()
    ensures { false_assert_means }
{}

/// Two calls that write the two halves of a region.
#[tactic(auto, using(crate::proofs::Calls::writes_by_parts_holds))]
pub fn writes_by_parts()
    ensures { writes_by_parts_means }
{}

/// A task that reads through one argument what it reduced through another.
#[tactic(auto, using(crate::proofs::Calls::overlapping_arguments_holds))]
pub fn overlapping_arguments()
    ensures { overlapping_arguments_means }
{}

/// A call between two uses of a region by its caller.
#[tactic(auto, using(crate::proofs::Calls::call_between_holds))]
pub fn call_between()
    ensures { call_between_means }
{}

/// A fault at one colour, after the calls before it.
#[tactic(auto, using(crate::proofs::Calls::fault_in_loop_holds))]
pub fn fault_in_loop()
    ensures { fault_in_loop_means }
{}

/// The first fault in the order of the text is the outcome.
#[tactic(auto, using(crate::proofs::Calls::first_fault_holds))]
pub fn first_fault()
    ensures { first_fault_means }
{}

/// A cast that finds its point, and one that results in null.
#[tactic(auto, using(crate::proofs::Pointers::null_pointer_holds))]
pub fn null_pointer()
    ensures { null_pointer_means }
{}

/// A point that a region lacks.
#[tactic(auto, using(crate::proofs::Pointers::outside_region_holds))]
pub fn outside_region()
    ensures { outside_region_means }
{}

/// In arithmetic, two pointers become their point numbers.
#[tactic(auto, using(crate::proofs::Pointers::pointer_arithmetic_holds))]
pub fn pointer_arithmetic()
    ensures { pointer_arithmetic_means }
{}

/// A null pointer on the right of a sum.
#[tactic(auto, using(crate::proofs::Pointers::null_on_the_right_holds))]
pub fn null_on_the_right()
    ensures { null_on_the_right_means }
{}

/// A null pointer on the left of a sum is a fault before the right side is evaluated.
#[tactic(auto, using(crate::proofs::Pointers::null_on_the_left_holds))]
pub fn null_on_the_left()
    ensures { null_on_the_left_means }
{}

/// The least position at which a region of a list holds a pointer.
#[tactic(auto, using(crate::proofs::Pointers::positions_holds))]
pub fn positions()
    ensures { positions_means }
{}

/// Wires between nodes, with pointers, privileges and a constraint.
#[tactic(auto, using(crate::proofs::Pointers::circuit_holds))]
pub fn circuit()
    ensures { circuit_means }
{}

/// Exactly as many turns as a loop takes.
#[tactic(auto, using(crate::proofs::Limits::turns_enough_holds))]
pub fn turns_enough()
    ensures { turns_enough_means }
{}

/// One turn fewer than a loop takes.
#[tactic(auto, using(crate::proofs::Limits::turns_spent_holds))]
pub fn turns_spent()
    ensures { turns_spent_means }
{}

/// A call whose argument takes the last turn.
#[tactic(auto, using(crate::proofs::Limits::arguments_first_holds))]
pub fn arguments_first()
    ensures { arguments_first_means }
{}

/// A task that calls itself forever.
#[tactic(auto, using(crate::proofs::Limits::calls_too_deep_holds))]
pub fn calls_too_deep()
    ensures { calls_too_deep_means }
{}

/// The greatest size of an index space.
#[tactic(auto, using(crate::proofs::Limits::greatest_space_holds))]
pub fn greatest_space()
    ensures { greatest_space_means }
{}

/// A size above the greatest.
#[tactic(auto, using(crate::proofs::Limits::space_too_large_holds))]
pub fn space_too_large()
    ensures { space_too_large_means }
{}

/// Children of a disjoint partition with different constants share no point.
pub fn siblings()
    ensures { siblings_means }
{}

/// A partition whose fact comes after one about its child, and a partition with two parents.
pub fn told_late()
    ensures { told_late_means }
{}

/// A child of an unknown colour isn't known to equal itself.
pub fn unknown_child()
    ensures { unknown_child_means }
{}

/// Regions that lie within one another.
pub fn cycle()
    ensures { cycle_means }
{}

/// Regions below two that share no point.
pub fn apart_above()
    ensures { apart_above_means }
{}

/// A region that was made after another was bound.
pub fn made_later()
    ensures { made_later_means }
{}

/// Touches under several privileges.
pub fn declared_access()
    ensures { declared_access_means }
{}

/// A touch of a root that the task made.
pub fn own_root()
    ensures { own_root_means }
{}
