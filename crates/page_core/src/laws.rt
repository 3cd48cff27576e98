ghost use Rattle.page_core.specs.Examples.{WorkedExamples};
ghost use Rattle.page_core.specs.Laws.{Composes, IsWellFormed};

/// Lists of events that are drawn one after the other are drawn as one list.
pub fn one_by_one()
    ensures { Composes }
{}

/// The HTML of a document is well formed where each part that begins in it ends in it.
pub fn well_formed()
    ensures { IsWellFormed }
{}

/// The definitions say of a small page what one works out by hand.
pub fn worked_examples()
    ensures { WorkedExamples }
{}
