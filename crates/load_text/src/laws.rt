ghost use Rattle.load_text.specs.Accepted.{LoadTextsAreAccepted};
ghost use Rattle.load_text.specs.Examples.{WorkedExamples};

/// The text of each number of goals from 1 to 200 is accepted.
pub fn load_texts_are_accepted()
    ensures { LoadTextsAreAccepted }
{}

/// The definitions say of one goal and of four what one writes by hand.
pub fn worked_examples()
    ensures { WorkedExamples }
{}
