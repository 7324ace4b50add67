//! Laws of the run in order.
#![tactic(auto)]

ghost use Rattle.order_laws.specs.Bounds.{CalledRunWhole, InstancesRunWhole, JobsRunWhole};

/// The bounds in the definition of the run in order cut no run short: with more segments or more instances
/// nested it ends alike, whatever would come where they ran out.
pub fn runs_are_whole()
    ensures jobs { JobsRunWhole }
    ensures instances { InstancesRunWhole }
    ensures called { CalledRunWhole }
{}
