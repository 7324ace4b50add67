//! Compiled code is sound: numbers, truths and control, roots and calls.
//!
//! The laws are stated under specs/. Each function has an empty body; its contract is a law.
#![tactic(auto)]

ghost use Rattle.sound_code.specs.CutsExample.{CutsExampleHolds};
ghost use Rattle.sound_code.specs.Example.{CodeExampleHolds};
ghost use Rattle.sound_code.specs.HandingExample.{HandedIsSound, HandsExampleHolds};
ghost use Rattle.sound_code.specs.LaunchedExample.{LaunchedExampleHolds};
ghost use Rattle.sound_code.specs.MiddleExample.{MiddleExampleHolds};
ghost use Rattle.sound_code.specs.PiecesExample.{PiecesExampleHolds};
ghost use Rattle.sound_code.specs.RulesExample.{HistogramIsSound, RulesExampleHolds};
ghost use Rattle.sound_code.specs.Programs.{AcceptedCodeKeepsRules, AcceptedTasksAreSound, CallsAreSound, HandingTasksAreSound, PlainProgramsAreSound, RegionTasksAreSound, ScalarProgramsAreSound, ScalarTasksAreSound, WholeProgramsAreSound};
ghost use Rattle.sound_code.specs.SiblingsExample.{SiblingsExampleHolds};
ghost use Rattle.sound_code.specs.WholeExample.{CircuitIsSound, WholeExampleHolds};

/// Where the entry task's body is typed and treats scalars alone, its code is sound, and the frame in which
/// its run begins fits, whatever its inputs and turns; and so it is of each accepted program over scalars.
pub fn scalar_code_is_sound()
    ensures tasks { ScalarTasksAreSound }
    ensures programs { ScalarProgramsAreSound }
{}

/// So it is where the task also makes roots, goes through index spaces, and reads, writes, reduces and fills fields
/// at points of regions.
#[tactic(auto, using(crate::proofs::Openings::region_tasks_are_sound))]
pub fn region_code_is_sound()
    ensures { RegionTasksAreSound }
{}

/// Where all tasks are typed, and call others that take numbers and truths and give these and indices, the code of each is sound.
/// The frame of a call fits when it opens, whatever its arguments and turns, and so does that in which a run begins.
#[tactic(auto, using(crate::proofs::Openings::calls_are_sound))]
pub fn code_with_calls_is_sound()
    ensures { CallsAreSound }
{}

/// Where no rule is breached, tasks may also take regions, with privileges and constraints on them: the code of each is
/// sound, and its frame fits when it opens with regions of which the constraints hold.
#[tactic(auto, using(crate::proofs::Rules::accepted_tasks_are_sound))]
pub fn accepted_code_is_sound()
    ensures { AcceptedTasksAreSound }
{}

/// Where tasks also hand regions to those that they call, roots that they made and regions that they took: the code of
/// each is sound, so that the frame which a call opens fits, its constraints hold, and what it needs is within what its
/// caller needs.
#[tactic(auto, using(crate::proofs::Rules::handing_tasks_are_sound))]
pub fn code_that_hands_regions_is_sound()
    ensures { HandingTasksAreSound }
{}

/// So is the code of each accepted program whose tasks keep no pointers and no partitions, without any
/// premise on types, and the frame in which its run begins fits, with any turns.
#[tactic(auto, using(crate::proofs::Rules::plain_programs_are_sound))]
pub fn plain_programs_are_sound()
    ensures { PlainProgramsAreSound }
{}

/// So is the code of each accepted program as the reader gives it: indices and pointers are kept, handed over and had in fields, through pointers fields are read, written and reduced, loops go over regions and
/// parts of partitions, partitions are made, also of others, and handed over, as their parts are, and variables begin as parts.
#[tactic(auto, using(crate::proofs::Rules::whole_programs_are_sound))]
pub fn whole_programs_are_sound()
    ensures { WholeProgramsAreSound }
{}

/// Of each accepted program as the reader gives it, with no inputs at all: there are marks that are the tree's by which the code
/// of each task is sound, so that from every state that fits, a segment's touches, calls and partitions are as declared, it isn't
/// a machine fault, and what it leaves fits again.
#[tactic(auto, using(crate::proofs::Rules::accepted_code_keeps_rules))]
pub fn accepted_code_keeps_rules()
    ensures { AcceptedCodeKeepsRules }
{}

/// A program with roots and calls of which each premise holds, and a run that begins in it.
#[tactic(auto, using(crate::proofs::Example::code_example_holds))]
pub fn code_example_holds()
    ensures { CodeExampleHolds }
{}

/// An accepted program with a task that takes regions, of which each premise holds, and a frame that opens in it; and a
/// histogram whose tasks keep their regions to themselves.
#[tactic(auto, using(crate::proofs::RulesExample::rules_example_holds, crate::proofs::RulesExample::histogram_is_sound))]
pub fn rules_example_holds()
    ensures rules { RulesExampleHolds }
    ensures histogram { HistogramIsSound }
{}

/// An accepted program whose tasks hand a region on, of which each premise holds, and a frame of one that fits when it
/// opens, whose first segment ends with such a call; and the one of code_laws, which is sound by its text alone.
#[tactic(auto, using(crate::proofs::HandingExample::hands_example_holds, crate::proofs::HandingExample::handed_is_sound))]
pub fn handing_example_holds()
    ensures example { HandsExampleHolds }
    ensures handed { HandedIsSound }
{}

/// An accepted program that keeps indices and pointers, goes over a region and hands a pointer over, of which each premise
/// holds; and the circuit of worked_examples.
#[tactic(auto, using(crate::proofs::WholeExample::whole_example_holds, crate::proofs::WholeExample::circuit_is_sound))]
pub fn whole_example_holds()
    ensures follows { WholeExampleHolds }
    ensures circuit { CircuitIsSound }
{}

/// An accepted program that makes partitions in each way, also of one that a task is given, and hands one over, of which each
/// premise holds.
#[tactic(auto, using(crate::proofs::CutsExample::cuts_example_holds))]
pub fn cuts_example_holds()
    ensures { CutsExampleHolds }
{}

/// An accepted program in whose calls constraints speak of two parts of one partition, of which each premise holds.
#[tactic(auto, using(crate::proofs::SiblingsExample::siblings_example_holds))]
pub fn siblings_example_holds()
    ensures { SiblingsExampleHolds }
{}

/// An accepted program of which variables begin as parts, which are filled, handed over and cut further, of which each premise
/// holds.
#[tactic(auto, using(crate::proofs::PiecesExample::pieces_example_holds))]
pub fn pieces_example_holds()
    ensures { PiecesExampleHolds }
{}

/// An accepted program with loops that are index launches, whose calls hand over parts, a region, a partition and a pointer that have
/// names, and colours, of which each premise holds.
#[tactic(auto, using(crate::proofs::LaunchedExample::launched_example_holds))]
pub fn launched_example_holds()
    ensures { LaunchedExampleHolds }
{}

/// In the middle of the code of an accepted program, within a loop, with two parts held, of which one is a reduction's, a state
/// fits, whichever marks the law gives; and states that differ from it in one thing each don't, at least one for each point of
/// what fits.
#[tactic(auto, using(crate::proofs::MiddleExample::middle_example_holds))]
pub fn middle_example_holds()
    ensures { MiddleExampleHolds }
{}
