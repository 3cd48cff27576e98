ghost use Rattle.spec_grammar.specs.Examples.{WorkedExamples};
ghost use Rattle.spec_grammar.specs.Laws.{OneReading, WithinLimits};

/// A text derives one raw specification at most and has one fault at most, and not both.
pub fn one_reading()
    ensures { OneReading }
{}

/// What a text derives keeps the limits: its counts, the depth of its terms, and the length of
/// its names.
pub fn within_limits()
    ensures { WithinLimits }
{}

/// The grammar says of small texts what one works out by hand.
pub fn worked_examples()
    ensures { WorkedExamples }
{}
