ghost use Rattle.matching.specs.Examples.{WorkedExamples};

/// The definitions say of a few sums what one works out by hand.
pub fn worked_examples()
    ensures { WorkedExamples }
{}
