ghost use Rattle.term_core.specs.Examples.{WorkedExamples};
ghost use Rattle.term_core.specs.Laws.{OnePlace, ReplacedIsThere};

/// A path has one subterm at most, and exchanging it has one result at most.
pub fn one_place()
    ensures { OnePlace }
{}

/// What is at the place of an exchanged subterm is the new one.
pub fn replaced_is_there()
    ensures { ReplacedIsThere }
{}

/// The definitions say of one small term what one works out by hand.
pub fn worked_examples()
    ensures { WorkedExamples }
{}
