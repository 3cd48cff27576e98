ghost use Rattle.ground_eval.specs.Laws.{OneVerdict};

/// A goal of the specification has at most one verdict under values within a budget, if left
/// sides don't overlap and groups are whole.
pub fn one_verdict()
    ensures { OneVerdict }
{}
