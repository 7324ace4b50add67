//! Laws of the compiler: code that a program is compiled to does what the program means.
//!
//! The laws are stated under specs/. Each function has an empty body; its contract is a law.
#![tactic(auto)]

ghost use Rattle.code_laws.specs.CallExample.{CallExampleHolds};
ghost use Rattle.code_laws.specs.Example.{ExampleHolds};
ghost use Rattle.code_laws.specs.GivenExample.{GivenExampleHolds};
ghost use Rattle.code_laws.specs.Handing.{HandingProgramsEndWell, RegionsAreHandedAsMeant};
ghost use Rattle.code_laws.specs.HandingExample.{HandingExampleHolds};
ghost use Rattle.code_laws.specs.LaunchExample.{LaunchExampleHolds};
ghost use Rattle.code_laws.specs.LocalExample.{LocalExampleHolds};
ghost use Rattle.code_laws.specs.MinusExample.{MinusExampleHolds};
ghost use Rattle.code_laws.specs.PointerCallExample.{PointerCallExampleHolds};
ghost use Rattle.code_laws.specs.PointerExample.{PointerExampleHolds};
ghost use Rattle.code_laws.specs.Privileges.{AllowedIsNeeded};
ghost use Rattle.code_laws.specs.RegionExample.{RegionExampleHolds};
ghost use Rattle.code_laws.specs.Programs.{CallsRunAsMeant, PointerCallsRunAsMeant, PointersRunAsMeant, RegionsRunAsMeant, ScalarsRunAsMeant};
ghost use Rattle.code_laws.specs.AcceptedPrograms.{AcceptedProgramsEndWell, AcceptedProgramsRunAsMeant};
ghost use Rattle.code_laws.specs.ScalarPrograms.{ScalarProgramsLeaveNoRoots, ScalarProgramsRunAsMeant};

/// Where the entry task's body is typed and treats scalars alone, the run in order of its code is what the
/// program means: its text, and its end or its first fault with the line.
#[tactic(auto, using(crate::proofs::Top::scalars_run_as_meant))]
pub fn scalars_run_as_meant()
    ensures { ScalarsRunAsMeant }
{}

/// So it is where the task also makes roots, and reads, writes, reduces and fills fields at points of regions:
/// an access outside its region faults as the program means it, and the roots' numbers are told at the end.
#[tactic(auto, using(crate::proofs::Top::regions_run_as_meant))]
pub fn regions_run_as_meant()
    ensures { RegionsRunAsMeant }
{}

/// So it is where the task also loops over regions and keeps pointers and indices: fields are read, written and reduced
/// through them, null and a point outside the region are the faults that the program means.
#[tactic(auto, using(crate::proofs::Top::pointers_run_as_meant))]
pub fn pointers_run_as_meant()
    ensures { PointersRunAsMeant }
{}

/// So it is where tasks call others that take numbers and truths and give these and indices, each with roots of its own: a call
/// costs a turn, one too deep is a fault, and what a child means it comes to.
#[tactic(auto, using(crate::proofs::Top::calls_run_as_meant))]
pub fn calls_run_as_meant()
    ensures { CallsRunAsMeant }
{}

/// So it is where such tasks also loop over regions and keep pointers and indices.
#[tactic(auto, using(crate::proofs::Top::pointer_calls_run_as_meant))]
pub fn pointer_calls_run_as_meant()
    ensures { PointerCallsRunAsMeant }
{}

/// So it is where tasks hand regions over to those that they call: roots that they made, or regions that they took.
/// What the called task needs lies within what the caller has, and the called task finds each point that it may touch,
/// of a region that it needs or of one that lies within such a region.
#[tactic(auto, using(crate::proofs::Top::regions_are_handed_as_meant))]
pub fn regions_are_handed_as_meant()
    ensures { RegionsAreHandedAsMeant }
{}

/// Where the rules allow an access to a region that a task took, its code needs that: so the access may be made.
#[tactic(auto, using(crate::proofs::Privileges::allowed_is_needed))]
pub fn allowed_accesses_may_be_made()
    ensures { AllowedIsNeeded }
{}

/// What such a program means is never broken, and the roots that it leaves are of the code's field spaces.
pub fn handing_programs_end_well()
    ensures { HandingProgramsEndWell }
{}

/// So it is for each accepted program over scalars.
#[tactic(auto, using(crate::proofs::ScalarRuns::scalar_programs_run_as_meant))]
pub fn scalar_programs_run_as_meant()
    ensures { ScalarProgramsRunAsMeant }
{}

/// Such a program leaves no roots, and what it means is never broken.
pub fn scalar_programs_leave_no_roots()
    ensures { ScalarProgramsLeaveNoRoots }
{}

/// So it is for each accepted program as the reader gives it. Nothing is supposed of types.
#[tactic(auto, using(crate::proofs::LocalRuns::accepted_programs_run_as_meant))]
pub fn accepted_programs_run_as_meant()
    ensures { AcceptedProgramsRunAsMeant }
{}

/// Such a run is never broken, and the roots that it leaves are of the code's field spaces, so that they can be
/// dumped.
#[tactic(auto, using(crate::proofs::LocalRuns::accepted_programs_end_well))]
pub fn accepted_programs_end_well()
    ensures { AcceptedProgramsEndWell }
{}

/// A program that makes a root and has accesses of every kind: each premise of the law on regions holds of it,
/// and with two inputs it means an end and a fault.
#[tactic(auto, using(crate::proofs::RegionExample::region_example_holds))]
pub fn region_example_holds()
    ensures { RegionExampleHolds }
{}

/// A program that loops over its region and keeps pointers, and indices in a field, of which each premise of the law on
/// pointers holds; with two inputs it means an end and a fault.
#[tactic(auto, using(crate::proofs::PointerExample::pointer_example_holds))]
pub fn pointer_example_holds()
    ensures { PointerExampleHolds }
{}

/// A task that sums over a region of its own and is called: each premise of the law on calls and pointers holds of it,
/// and with too few turns it means a fault.
#[tactic(auto, using(crate::proofs::PointerCallExample::pointer_call_example_holds))]
pub fn pointer_call_example_holds()
    ensures { PointerCallExampleHolds }
{}

/// A program with calls of which each premise of the law on calls holds; it means an end, and with too few turns
/// a fault.
#[tactic(auto, using(crate::proofs::CallExample::call_example_holds))]
pub fn call_example_holds()
    ensures { CallExampleHolds }
{}

/// An accepted program that hands a region over, and on, of which each premise of the law on that holds; it means an
/// end, with another input a fault in the called task, and with too few turns one at a call.
#[tactic(auto, using(crate::proofs::HandingExample::handing_example_holds))]
pub fn handing_example_holds()
    ensures { HandingExampleHolds }
{}

/// A histogram, with calls and regions, of which each premise of the law on such programs holds; with two inputs it
/// means an end and a fault.
#[tactic(auto, using(crate::proofs::LocalExample::local_example_holds))]
pub fn local_example_holds()
    ensures { LocalExampleHolds }
{}

/// A program with a task that gives an index, of which each premise of the law on accepted programs holds; with two inputs it
/// means an end and a fault.
#[tactic(auto, using(crate::proofs::GivenExample::given_example_holds))]
pub fn given_example_holds()
    ensures { GivenExampleHolds }
{}

/// A program with the difference of two partitions, and a part, as variables of written types, of which each premise of the
/// law on accepted programs holds; it means an end.
#[tactic(auto, using(crate::proofs::MinusExample::minus_example_holds))]
pub fn minus_example_holds()
    ensures { MinusExampleHolds }
{}

/// A program with a launch over the parts of a partition, of which each premise of the law on accepted programs holds; with more
/// colours than parts the calls before the fault print.
#[tactic(auto, using(crate::proofs::LaunchExample::launch_example_holds))]
pub fn launch_example_holds()
    ensures { LaunchExampleHolds }
{}

/// A program and a number of which each premise of the law holds.
#[tactic(auto, using(crate::proofs::Example::example_holds))]
pub fn example_holds()
    ensures { ExampleHolds }
{}
