ghost use Rattle.normalization.specs.Examples.{WorkedExamples};
ghost use Rattle.normalization.specs.Laws.{OneAnswer, OneNormalForm};

/// A term has one normal form at most, by one chain of uses, and no chain is longer.
pub fn one_normal_form()
    ensures { OneNormalForm }
{}

/// A term has one answer at most for a budget: in particular it isn't both Done and Spent.
pub fn one_answer()
    ensures { OneAnswer }
{}

/// The definitions say of a few terms what one works out by hand.
pub fn worked_examples()
    ensures { WorkedExamples }
{}
