ghost use Rattle.plain_proof.specs.Examples.{WorkedExamples};
ghost use Rattle.plain_proof.specs.FirstSteps.{FirstSteps};
ghost use Rattle.plain_proof.specs.Laws.{OneLength};

use term_order::TermOrder;

/// Goals on naturals with addition, with the lengths of their plain proofs.
pub fn worked_examples()
    ensures { WorkedExamples }
{}

/// A goal has plain proofs of one length at most on a variable.
pub fn one_length()
    ensures { OneLength }
{}

/// The first step of a plain proof's block makes the cases of the variable.
pub fn first_steps<O: TermOrder>(order: &O)
    ensures { FirstSteps (O.above order.now) }
{}
