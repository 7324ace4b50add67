//! What is so behind a failure. The function has an empty body; its contract is a law.

ghost use Rattle.dependence_graph.specs.Laws.{FailuresReachAll};

/// Behind a failure nothing waits for what has failed or was dropped, and no others have given up than those that
/// wait for such.
pub fn failures_reach_all()
    ensures { FailuresReachAll }
{}
