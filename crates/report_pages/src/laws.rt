ghost use Rattle.report_pages.specs.Examples.{WorkedExamples};

/// The definitions say of small values what one works out by hand.
pub fn worked_examples()
    ensures { WorkedExamples }
{}
