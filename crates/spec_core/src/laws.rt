ghost use Rattle.spec_core.specs.Examples.{WorkedExamples};
ghost use Rattle.spec_core.specs.Laws.{OneValue, OneSmallValue};

/// A sorted term has at most one value and one cost, if left sides don't overlap and groups are
/// whole.
pub fn one_value()
    ensures { OneValue }
{}

/// A sort has at most one small value, which is a value of it, and none has fewer symbols.
pub fn one_small_value()
    ensures { OneSmallValue }
{}

/// The definitions say of naturals with addition what one works out by hand.
pub fn worked_examples()
    ensures { WorkedExamples }
{}
