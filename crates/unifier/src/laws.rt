ghost use Rattle.unifier.specs.Examples.{WorkedExamples};
ghost use Rattle.unifier.specs.Laws.{ShiftedAreApart};

/// A shifted term has no variable in common with a term whose variables have numbers below the
/// shift.
pub fn shifted_are_apart()
    ensures { ShiftedAreApart }
{}

/// The definitions say of a few sums what one works out by hand.
pub fn worked_examples()
    ensures { WorkedExamples }
{}
