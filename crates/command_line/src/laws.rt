ghost use Rattle.command_line.specs.Laws.{OneRequest};
ghost use Rattle.command_line.specs.Examples.{WorkedExamples};

/// Words ask for one task on one file at most.
pub fn one_request()
    ensures { OneRequest }
{}

/// The definitions say of some lists of words what one works out by hand.
pub fn worked_examples()
    ensures { WorkedExamples }
{}
