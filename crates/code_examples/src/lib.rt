//! Programs whose compiled code, run in order, gives what they mean, each proved by computing.
//!
//! Each function has an empty body; its contract names the programs.
#![tactic(auto)]

ghost use Rattle.code_examples.specs.Numbers.{assignment_runs, narrow_product_runs, empty_task_runs, signed_division_runs, input_printed_runs};
ghost use Rattle.code_examples.specs.Statements.{hidden_names_runs, choices_runs, early_stop_runs, early_return_runs, filled_runs, false_assert_runs};
ghost use Rattle.code_examples.specs.Calls.{writes_by_parts_runs, overlapping_arguments_runs, call_between_runs, fault_in_loop_runs, first_fault_runs};
ghost use Rattle.code_examples.specs.Limits.{turns_enough_runs, turns_spent_runs, arguments_first_runs, calls_too_deep_runs, greatest_space_runs, space_too_large_runs};
ghost use Rattle.code_examples.specs.Reductions.{reducing_calls_runs, wrapping_reduction_runs, least_lowered_runs, least_kept_runs, narrow_least_runs};
ghost use Rattle.code_examples.specs.Partitions.{equal_sizes_runs, sizes_by_field_runs, set_operations_runs, bad_colour_runs};
ghost use Rattle.code_examples.specs.Images.{preimage_of_colour_0_runs, preimage_of_colour_1_runs, neighbours_runs};
ghost use Rattle.code_examples.specs.Pointers.{null_pointer_runs, outside_region_runs, positions_runs, circuit_runs, pointer_arithmetic_runs, null_on_the_right_runs, null_on_the_left_runs};
ghost use Rattle.code_examples.specs.Children.{children_mean, children_run};

/// Numbers, and what is printed of them.
pub fn numbers_run()
    ensures assignment { assignment_runs }
    ensures narrow_product { narrow_product_runs }
    ensures empty_task { empty_task_runs }
    ensures signed_division { signed_division_runs }
    ensures input_printed { input_printed_runs }
{}

/// Names that hide others, choices, tests that stop early, and what ends a task.
pub fn statements_run()
    ensures hidden_names { hidden_names_runs }
    ensures choices { choices_runs }
    ensures early_stop { early_stop_runs }
    ensures early_return { early_return_runs }
    ensures filled { filled_runs }
    ensures false_assert { false_assert_runs }
{}

/// Calls of tasks, and whose fault is told.
pub fn calls_run()
    ensures writes_by_parts { writes_by_parts_runs }
    ensures overlapping_arguments { overlapping_arguments_runs }
    ensures call_between { call_between_runs }
    ensures fault_in_loop { fault_in_loop_runs }
    ensures first_fault { first_fault_runs }
{}

/// Turns, depth and sizes up to their limits.
pub fn limits_run()
    ensures turns_enough { turns_enough_runs }
    ensures turns_spent { turns_spent_runs }
    ensures arguments_first { arguments_first_runs }
    ensures calls_too_deep { calls_too_deep_runs }
    ensures greatest_space { greatest_space_runs }
    ensures space_too_large { space_too_large_runs }
{}

/// Reductions by calls and by statements.
pub fn reductions_run()
    ensures reducing_calls { reducing_calls_runs }
    ensures wrapping_reduction { wrapping_reduction_runs }
    ensures least_lowered { least_lowered_runs }
    ensures least_kept { least_kept_runs }
    ensures narrow_least { narrow_least_runs }
{}

/// Partitions in blocks, by a field and by set operations.
pub fn partitions_run()
    ensures equal_sizes { equal_sizes_runs }
    ensures sizes_by_field { sizes_by_field_runs }
    ensures set_operations { set_operations_runs }
    ensures bad_colour { bad_colour_runs }
{}

/// Images and preimages.
pub fn images_run()
    ensures preimage_of_colour_0 { preimage_of_colour_0_runs }
    ensures preimage_of_colour_1 { preimage_of_colour_1_runs }
    ensures neighbours { neighbours_runs }
{}

/// Pointers that are null, go nowhere, and are converted.
pub fn pointers_run()
    ensures null_pointer { null_pointer_runs }
    ensures outside_region { outside_region_runs }
    ensures positions { positions_runs }
    ensures circuit { circuit_runs }
    ensures pointer_arithmetic { pointer_arithmetic_runs }
    ensures null_on_the_right { null_on_the_right_runs }
    ensures null_on_the_left { null_on_the_left_runs }
{}

/// Pointers into children, results in expressions, and the least and greatest of a variable.
pub fn children_run()
    ensures children_mean { children_mean }
    ensures children_run { children_run }
{}
