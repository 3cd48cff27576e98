ghost use Rattle.value_bank.specs.Laws.{HasTerm, OneTerm, OnePlace, KeepsTerms};
ghost use Rattle.value_bank.specs.Examples.{WorkedExamples};

/// Each place of a bank has a term.
pub fn has_term()
    ensures { HasTerm }
{}

/// A place has one term at most.
pub fn one_term()
    ensures { OneTerm }
{}

/// Two places of a bank have different terms.
pub fn one_place()
    ensures { OnePlace }
{}

/// When cells are added, a place keeps its term.
pub fn keeps_terms()
    ensures { KeepsTerms }
{}

/// The cells of a small bank have the terms that one works out by hand.
pub fn worked_examples()
    ensures { WorkedExamples }
{}
