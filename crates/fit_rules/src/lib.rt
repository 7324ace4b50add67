//! What fits compiled code: the definitions, and an example of a state that fits and of some that don't.
//!
//! The definitions stand under specs/. Each function has an empty body; its contract tells of the example.
#![tactic(auto)]

ghost use Rattle.fit_rules.specs.Example.{ChildIsKnown, CountIsKnown, ExampleFits, FailsEachPoint, HeldIsKnown};

/// In the middle of a body, with two parts held, of which one is a reduction's, a state fits; and states that differ from it
/// in one thing each don't, at least one for each point of what fits. A region on the stack is known as the child by its
/// colour of a partition in a slot, and by no other; and one as the region in its slot, and in no other. A loop's counter is at
/// most the number of its domain's points.
pub fn example_fits()
    ensures fits { ExampleFits }
    ensures fails { FailsEachPoint }
    ensures child { ChildIsKnown }
    ensures held { HeldIsKnown }
    ensures count { CountIsKnown }
{}
