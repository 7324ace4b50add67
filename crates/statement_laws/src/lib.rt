//! Laws of the statements of programs without a breach: they keep what holds at each place of a body, and
//! each touch is covered by what the task declares.
//!
//! The laws are stated under specs/. Each function has an empty body; its contract is a law.
#![tactic(auto)]

ghost use Rattle.statement_laws.specs.Example.{ExampleHolds};
ghost use Rattle.statement_laws.specs.Opened.{OpenedCallsLieWithin, OpenedInstancesAreCovered};
ghost use Rattle.statement_laws.specs.OpenedExample.{OpenedExampleHolds};
ghost use Rattle.statement_laws.specs.PlaceExample.{PlacesAreReady};
ghost use Rattle.statement_laws.specs.WatchedExample.{WatchedExampleHolds};
ghost use Rattle.statement_laws.specs.Watching.{ProgramsKeepPrivileges};
ghost use Rattle.statement_laws.specs.Laws.{AnswersAreSound, BodiesAreCovered, InstancesAreCovered, OpeningsAreSound, StatementsKeep};

/// Every statement keeps what holds at a place.
pub fn statements_keep()
    ensures { StatementsKeep }
{}

/// Where arguments fit a task, what must hold where its body begins does.
pub fn openings_are_sound()
    ensures { OpeningsAreSound }
{}

/// Each touch of a body is covered by what its task declares.
pub fn bodies_are_covered()
    ensures { BodiesAreCovered }
{}

/// Calls whose arguments fit give values of the called tasks' result types, however deep they may nest.
pub fn answers_are_sound()
    ensures { AnswersAreSound }
{}

/// Each touch of an instance whose arguments fit is covered by what its task declares.
pub fn instances_are_covered()
    ensures { InstancesAreCovered }
{}

/// In a program without a breach no task of a run touches an element outside its declared privileges.
pub fn programs_keep_privileges()
    ensures { ProgramsKeepPrivileges }
{}

/// In a program without a breach each touch of each task instance that a run opens is covered by what its task
/// declares.
pub fn opened_instances_are_covered()
    ensures { OpenedInstancesAreCovered }
{}

/// In a program without a breach what each call of an instance needs that a run opens lies within what the instance has.
pub fn opened_calls_lie_within()
    ensures { OpenedCallsLieWithin }
{}

/// A task and arguments of which each premise of the laws on openings, bodies and instances holds, with the
/// touches that it makes.
pub fn example_holds()
    ensures { ExampleHolds }
{}

/// A program of which the premises of the law on programs hold, and whose watched run has no alarm; and one without
/// the privileges, whose watched run ends with it.
pub fn watched_example_holds()
    ensures { WatchedExampleHolds }
{}

/// Two places at which all holds that the laws on statements and expressions suppose: before a reduction, and before a
/// call.
pub fn places_are_ready()
    ensures { PlacesAreReady }
{}

/// An instance that a run opens by a call, with its touches.
pub fn opened_example_holds()
    ensures { OpenedExampleHolds }
{}
