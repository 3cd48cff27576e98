//! The laws of the table of steps.

ghost use Rattle.clause_core.specs.TableExamples.{TableExamples};
ghost use Rattle.clause_core.specs.StepExamples.{StepExamples};
ghost use Rattle.clause_core.specs.StepLaws.{AllPlacesAgree, OneAnswer};

use term_order::TermOrder;

/// A step at a node has at most one answer.
pub fn one_answer<O: TermOrder>(order: &O)
    ensures { OneAnswer (O.above order.now) }
{}

/// A place is one of term_core's: a path in a side of an equation.
pub fn places_agree()
    ensures { AllPlacesAgree }
{}

/// The table says at a sum of naturals and at a list of two items what one works out by hand.
pub fn table_examples()
    ensures { TableExamples }
{}

/// The table says of each other step what one works out by hand.
pub fn step_examples()
    ensures { StepExamples }
{}
