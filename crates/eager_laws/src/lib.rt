//! The eager run: a run in order in which the result of a call is a number as soon as the call returns.
//!
//! In the machine that result is a future: a pending child, which the first load of its slot waits for. The laws
//! of the compiler speak of the eager run, where no value is pending; the laws here carry its end over to the
//! machine. Each function has an empty body; its contract is a law, and the definitions are in specs/.
#![tactic(auto)]

ghost use Rattle.eager_laws.specs.Laws.{InstancesBegin, EagerRunsCarry, EagerRunsGive};

/// If the code is tidy, an instance that ends with a value or a fault in the eager run ends the same way on
/// the machine.
pub fn eager_runs_carry()
    ensures { EagerRunsCarry }
{}

/// The same holds for the machine's run by segments, within the bound on their number.
pub fn eager_runs_give()
    ensures { EagerRunsGive }
{}

/// An instance that begins with arguments of which none is pending satisfies the premises of the two laws.
pub fn instances_begin()
    ensures { InstancesBegin }
{}
