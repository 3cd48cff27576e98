ghost use Rattle.sort_check.specs.Examples.{WorkedExamples};
ghost use Rattle.sort_check.specs.Laws.{FaultyStandsForNone, KeepsSizes, NumberingKeepsSizes};
ghost use Rattle.sort_check.specs.Laws.{OneFirstFault, OneSpecification, StandsWellSorted};

/// A raw specification stands for at most one specification.
pub fn one_specification()
    ensures { OneSpecification }
{}

/// A raw specification that has a fault stands for none, and so does a raw term.
pub fn faulty_stands_for_none()
    ensures { FaultyStandsForNone }
{}

/// A raw specification has at most one first fault, and none if no test finds one.
pub fn one_first_fault()
    ensures { OneFirstFault }
{}

/// What a raw term stands for has as many symbols and variables as the raw term has words.
pub fn sizes_are_kept()
    ensures { KeepsSizes }
{}

/// The terms of a specification's rules have no more symbols and variables than a raw term has
/// words.
pub fn numbering_keeps_sizes()
    ensures { NumberingKeepsSizes }
{}

/// What a raw specification within the limits stands for is well sorted.
pub fn well_sorted()
    ensures { StandsWellSorted }
{}

/// The definitions say of naturals with addition, and of a few faults, what one works out by hand.
pub fn worked_examples()
    ensures { WorkedExamples }
{}
