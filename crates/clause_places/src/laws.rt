ghost use Rattle.clause_places.specs.Laws.{PlaceLaws, AskedIsVariable};
ghost use Rattle.clause_places.specs.Examples.{WorkedExamples};

/// Each place of the list is there, with the term of its spot, and the numbers of places of a node
/// fit.
pub fn places_are_there()
    ensures { PlaceLaws }
{}

/// What is asked for is a variable of the clause.
pub fn asked_is_variable()
    ensures { AskedIsVariable }
{}

/// The definitions say of small clauses what one works out by hand.
pub fn worked_examples()
    ensures { WorkedExamples }
{}
