ghost use Rattle.soundness.specs.AcceptedAreTrue.{AcceptedAreTrue};
ghost use Rattle.soundness.specs.Examples.{WorkedExamples};

use term_order::TermOrder;

/// If a well sorted specification is admitted and a report accepted by the same order, each
/// proved claim is on a true goal, and each refuted one on a goal that fails under its values.
pub fn accepted_are_true<O: TermOrder>(order: &O)
    ensures { AcceptedAreTrue (O.above order.now) }
{
    descent::values_rank_lower(order);
    descent::steps_descend(order);
    descent::children_are_sorted(order);
}

/// The goals of the worked reports are as their claims say.
pub fn worked_examples()
    ensures { WorkedExamples }
{
    acceptance::worked_examples();
    clause_core::tidying_laws();
    clause_core::worked_examples();
    spec_core::worked_examples();
}
