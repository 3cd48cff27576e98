ghost use Rattle.spec_text.specs.Examples.{WorkedExamples};
ghost use Rattle.spec_text.specs.Laws.{OneList, SpansHold, WrittenScans};

/// A text has no two lists of tokens.
pub fn one_list()
    ensures { OneList }
{}

/// The tokens of a text lie in it, in order, and each is spelled by its bytes.
pub fn spans()
    ensures { SpansHold }
{}

/// What is written as sound pieces and blanks has the tokens of the pieces.
pub fn written_scans()
    ensures { WrittenScans }
{}

/// The definitions say of small texts what one works out by hand.
pub fn worked_examples()
    ensures { WorkedExamples }
{}
