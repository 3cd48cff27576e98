ghost use Rattle.overlap_check.specs.Examples.{WorkedExamples};
ghost use Rattle.overlap_check.specs.Laws.{BothOverlap, OneNaming, OneLinearity, OneOverlap};

/// At most one list of values is named for two rules.
pub fn one_naming()
    ensures { OneNaming }
{}

/// A specification has at most one answer of each kind.
pub fn one_answer()
    ensures linear { OneLinearity }
    ensures overlap { OneOverlap }
{}

/// If two rules are named, some left sides overlap.
pub fn both_overlap()
    ensures { BothOverlap }
{}

/// The definitions say of naturals with addition what one works out by hand.
pub fn worked_examples()
    ensures { WorkedExamples }
{}
