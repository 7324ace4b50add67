//! Laws of segments of any code, and worked examples of what the machine does.
//!
//! What is said stands under specs/. Each function has an empty body; its contract is a law, or tells
//! what some hand-written code yields.
#![tactic(auto)]

ghost use Rattle.machine_laws.specs.Accesses.{fill_is_done, great_number_is_wrapped, held_point_is_read, missing_fill_part_is_wanted, missing_part_is_wanted, other_modes_break, other_width_breaks, point_outside_part_breaks, read_of_reduction_breaks, touch_outside_needs_breaks, written_point_is_set, wrong_fills_break};
ghost use Rattle.machine_laws.specs.Calls.{absent_callee_breaks, call_costs_come_in_order, call_is_yielded, too_many_children_break, wrong_count_breaks};
ghost use Rattle.machine_laws.specs.Faults.{bad_colour_faults, bad_size_faults, deep_call_faults, divide_by_zero_faults, failed_assert_faults, least_quotient_wraps, null_pointer_faults, out_of_region_faults, spent_turns_fault};
ghost use Rattle.machine_laws.specs.Frames.{absent_task_breaks, empty_body_breaks, few_slots_break, fitting_frame_returns, later_fault_comes, later_fault_of_absent_task_breaks, many_slots_break, passed_end_breaks};
ghost use Rattle.machine_laws.specs.Launches.{all_calls_are_yielded, calls_before_a_fault_are_yielded, launch_costs_come_in_order, no_colours_make_no_calls, rounds_and_calls_take_turns, too_many_launched_break, wrong_arguments_break, wrong_colours_break, wrong_launches_break};
ghost use Rattle.machine_laws.specs.Loops.{numbers_are_counted, points_are_taken, truths_are_joined, wrong_domains_break};
ghost use Rattle.machine_laws.specs.Operands.{absent_slots_break, counted_loop_exits, jump_back_takes_turns, jump_goes_there, jump_not_made_returns, jumps_out_of_range_break, loaded_child_is_awaited, missing_operand_breaks, nothing_to_drop_breaks, nothing_to_store_breaks, pending_child_breaks, region_in_sum_breaks, slots_hold, space_in_sum_breaks, stored_child_is_kept, two_numbers_add};
ghost use Rattle.machine_laws.specs.Partitions.{by_field_is_made, by_field_tests_come_in_order, child_is_looked_up, colours_are_counted, image_is_made, image_of_another_root_breaks, image_past_the_region_breaks, preimage_in_another_root_breaks, preimage_is_made, preimage_past_the_region_breaks, too_many_colours_break};
ghost use Rattle.machine_laws.specs.Parts.{SegmentsKeepParts};
ghost use Rattle.machine_laws.specs.Pointers.{cast_looks_up_no_position, element_is_taken, first_region_is_taken, high_positions_break, kept_numbers_are_read, moved_pointer_is_moved, position_of_number_breaks, positions_are_not_compared, read_positions_are_looked_up};
ghost use Rattle.machine_laws.specs.Resumptions.{child_is_awaited, made_root_is_pushed, reduction_starts_at_identity, want_is_met};
ghost use Rattle.machine_laws.specs.Roots.{absent_space_breaks, root_is_made, root_of_number_breaks, sizes_have_a_limit, too_many_fields_break};
ghost use Rattle.machine_laws.specs.TouchLists.{fault_touches_nothing, fill_touches_each_point, later_fault_touches_nothing, partition_touches_each_point, touches_come_in_order, want_touches_nothing};
ghost use Rattle.machine_laws.specs.Yields.{AbsentTasksYield, LaterFaultsYield, SegmentsYield, WrongSlotsYield};

/// Every segment of every code yields, at once or at a step; no run is cut short by the steps that it
/// is allowed.
pub fn segments_yield()
    ensures at_a_step { SegmentsYield }
    ensures absent_task { AbsentTasksYield }
    ensures wrong_slots { WrongSlotsYield }
    ensures later_fault { LaterFaultsYield }
{}

/// A segment gives back its parts, with other numbers at most.
pub fn segments_keep_parts()
    ensures { SegmentsKeepParts }
{}

/// A frame that doesn't fit its code, or has a fault that was kept for later, yields at once.
pub fn misfitting_frames()
    ensures fitting_frame { fitting_frame_returns }
    ensures absent_task { absent_task_breaks }
    ensures few_slots { few_slots_break }
    ensures many_slots { many_slots_break }
    ensures later_fault { later_fault_comes }
    ensures later_fault_of_absent_task { later_fault_of_absent_task_breaks }
    ensures passed_end { passed_end_breaks }
    ensures empty_body { empty_body_breaks }
{}

/// Operands that are missing or of a wrong kind break.
pub fn operands()
    ensures two_numbers { two_numbers_add }
    ensures space_in_sum { space_in_sum_breaks }
    ensures region_in_sum { region_in_sum_breaks }
    ensures missing_operand { missing_operand_breaks }
    ensures nothing_to_store { nothing_to_store_breaks }
    ensures nothing_to_drop { nothing_to_drop_breaks }
{}

/// Slots and places out of range break where they are used.
pub fn slots_and_places()
    ensures slots { slots_hold }
    ensures absent_slots { absent_slots_break }
    ensures jump { jump_goes_there }
    ensures jumps_out_of_range { jumps_out_of_range_break }
    ensures jump_back { jump_back_takes_turns }
    ensures jump_not_made { jump_not_made_returns }
    ensures counted_loop { counted_loop_exits }
{}

/// A child that is pending is stored, dropped or awaited, and else breaks.
pub fn pending_children()
    ensures pending_child { pending_child_breaks }
    ensures stored_child { stored_child_is_kept }
    ensures loaded_child { loaded_child_is_awaited }
{}

/// Calls of tasks that are there with their number of arguments, or not.
pub fn calls()
    ensures call { call_is_yielded }
    ensures absent_callee { absent_callee_breaks }
    ensures wrong_count { wrong_count_breaks }
    ensures call_costs { call_costs_come_in_order }
    ensures too_many_children { too_many_children_break }
{}

/// Launches: their calls, the fault that may follow them, and what breaks.
pub fn launches()
    ensures all_calls { all_calls_are_yielded }
    ensures before_a_fault { calls_before_a_fault_are_yielded }
    ensures turns { rounds_and_calls_take_turns }
    ensures costs { launch_costs_come_in_order }
    ensures no_colours { no_colours_make_no_calls }
    ensures too_many { too_many_launched_break }
    ensures wrong_launches { wrong_launches_break }
    ensures wrong_arguments { wrong_arguments_break }
    ensures wrong_colours { wrong_colours_break }
{}

/// Roots of field spaces that are there, or not.
pub fn roots()
    ensures root { root_is_made }
    ensures absent_space { absent_space_breaks }
    ensures too_many_fields { too_many_fields_break }
    ensures root_of_number { root_of_number_breaks }
    ensures sizes { sizes_have_a_limit }
{}

/// Images and preimages read a region in which their sets lie.
pub fn images()
    ensures image { image_is_made }
    ensures image_of_another_root { image_of_another_root_breaks }
    ensures image_past_the_region { image_past_the_region_breaks }
    ensures preimage { preimage_is_made }
    ensures preimage_in_another_root { preimage_in_another_root_breaks }
    ensures preimage_past_the_region { preimage_past_the_region_breaks }
{}

/// Partitions by a field, and the colours of a partition.
pub fn colours()
    ensures by_field { by_field_is_made }
    ensures by_field_tests { by_field_tests_come_in_order }
    ensures child { child_is_looked_up }
    ensures colours { colours_are_counted }
    ensures too_many_colours { too_many_colours_break }
{}

/// A touch is of a part that is held in a mode that allows it, at the width of the field; else it wants the part, or breaks.
#[tactic(auto, using(crate::proofs::Wrapped::great_number_holds, crate::proofs::Wrapped::written_point_holds))]
pub fn touches()
    ensures held_point { held_point_is_read }
    ensures touch_outside_needs { touch_outside_needs_breaks }
    ensures missing_part { missing_part_is_wanted }
    ensures point_outside_part { point_outside_part_breaks }
    ensures read_of_reduction { read_of_reduction_breaks }
    ensures written_point { written_point_is_set }
    ensures other_modes { other_modes_break }
    ensures other_width { other_width_breaks }
    ensures great_number { great_number_is_wrapped }
{}

/// A fill writes at each point of its region.
pub fn fills()
    ensures fill { fill_is_done }
    ensures wrong_fills { wrong_fills_break }
    ensures missing_fill_part { missing_fill_part_is_wanted }
{}

/// Pointers as they are kept, and comparisons and casts of them.
pub fn kept_pointers()
    ensures kept_numbers { kept_numbers_are_read }
    ensures positions { positions_are_not_compared }
    ensures first_region { first_region_is_taken }
    ensures cast { cast_looks_up_no_position }
    ensures element { element_is_taken }
{}

/// Positions of pointers, where they are looked up.
pub fn positions()
    ensures moved_pointer { moved_pointer_is_moved }
    ensures read_positions { read_positions_are_looked_up }
    ensures high_positions { high_positions_break }
    ensures position_of_number { position_of_number_breaks }
{}

/// Each fault comes on the line of its instruction.
#[tactic(auto, using(crate::proofs::Wrapped::least_quotient_holds))]
pub fn each_fault()
    ensures divide_by_zero { divide_by_zero_faults }
    ensures out_of_region { out_of_region_faults }
    ensures null_pointer { null_pointer_faults }
    ensures bad_colour { bad_colour_faults }
    ensures failed_assert { failed_assert_faults }
    ensures spent_turns { spent_turns_fault }
    ensures deep_call { deep_call_faults }
    ensures bad_size { bad_size_faults }
    ensures least_quotient { least_quotient_wraps }
{}

/// What is yielded is met, and the next segment goes on from there.
#[tactic(auto, using(crate::proofs::Wrapped::child_holds, crate::proofs::Wrapped::reduction_holds))]
pub fn resumptions()
    ensures want { want_is_met }
    ensures made_root { made_root_is_pushed }
    ensures child { child_is_awaited }
    ensures reduction { reduction_starts_at_identity }
{}

/// The touches of segments.
pub fn touch_lists()
    ensures touches { touches_come_in_order }
    ensures want { want_touches_nothing }
    ensures fault { fault_touches_nothing }
    ensures later_fault { later_fault_touches_nothing }
    ensures fill { fill_touches_each_point }
    ensures partition { partition_touches_each_point }
{}

/// Heads of loops, and jumps that stop a test early.
pub fn loops()
    ensures numbers { numbers_are_counted }
    ensures points { points_are_taken }
    ensures wrong_domains { wrong_domains_break }
    ensures truths { truths_are_joined }
{}
