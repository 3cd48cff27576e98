ghost use Rattle.refuter.specs.Examples.{WorkedExamples};

/// What is counted is what one counts by hand, of a few small sorts.
pub fn worked_examples()
    ensures { WorkedExamples }
{}
