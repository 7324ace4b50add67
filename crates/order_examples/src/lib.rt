//! Worked examples of the run in order: hand-written jobs in which one thing is odd, and what they come to.
//!
//! Each function has an empty body; its contract tells the outcome of jobs that stand under specs/.
#![tactic(auto)]

ghost use Rattle.order_examples.specs.Calls.{depth_has_a_limit, fault_of_child_decides, greater_needs_break, narrow_task_breaks, no_points_are_needed, turns_are_fresh, values_come_back, void_needs_break};
ghost use Rattle.order_examples.specs.Launches.{calls_run_before_the_fault, each_call_runs, fault_of_call_decides};
ghost use Rattle.order_examples.specs.Roots.{read_sees_reduction, reductions_are_folded, roots_of_child_are_gone, sets_that_leave_break};
ghost use Rattle.order_examples.specs.Starts.{absent_start_is_void, job_is_started, narrow_start_is_void, needy_start_is_void, wrong_inputs_are_void};

/// Void jobs, each beside a job that starts.
pub fn starts()
    ensures job { job_is_started }
    ensures absent_start { absent_start_is_void }
    ensures wrong_inputs { wrong_inputs_are_void }
    ensures needy_start { needy_start_is_void }
    ensures narrow_start { narrow_start_is_void }
{}

/// Calls that break, what comes back from a child, and what a child begins with.
#[tactic(auto, using(crate::proofs::Computed::values_hold))]
pub fn calls()
    ensures greater_needs { greater_needs_break }
    ensures void_needs { void_needs_break }
    ensures no_points { no_points_are_needed }
    ensures narrow_task { narrow_task_breaks }
    ensures values { values_come_back }
    ensures turns { turns_are_fresh }
    ensures depth { depth_has_a_limit }
    ensures fault { fault_of_child_decides }
{}

/// Launches: each call runs whole, and then a fault comes that the launch met.
pub fn launches()
    ensures each_call { each_call_runs }
    ensures before_the_fault { calls_run_before_the_fault }
    ensures fault_of_call { fault_of_call_decides }
{}

/// Reductions, roots of children, and sets that leave their region.
#[tactic(auto, using(crate::proofs::Computed::reductions_hold, crate::proofs::Computed::read_holds))]
pub fn roots()
    ensures reductions { reductions_are_folded }
    ensures read { read_sees_reduction }
    ensures roots_of_child { roots_of_child_are_gone }
    ensures sets { sets_that_leave_break }
{}
