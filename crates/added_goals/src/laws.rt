ghost use Rattle.added_goals.specs.Examples.{WorkedExamples};
ghost use Rattle.added_goals.specs.Laws.{AddingKeepsMeaning};

/// A goal is true, or fails under values, of a specification with further goals if and only if it
/// is or does without them.
pub fn adding_keeps_meaning()
    ensures { AddingKeepsMeaning }
{}

/// The definitions say of naturals with addition what one works out by hand.
pub fn worked_examples()
    ensures { WorkedExamples }
{}
