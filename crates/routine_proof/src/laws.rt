ghost use Rattle.routine_proof.specs.Examples.{WorkedExamples};
ghost use Rattle.routine_proof.specs.Laws.{OneBlock, OneProof, ProvesBehindClaims};
ghost use Rattle.routine_proof.specs.Standing.{RoutineBlocksStand};

use term_order::TermOrder;

/// Each start of a goal has at most one routine block.
pub fn one_block<O: TermOrder>(order: &O)
    ensures { OneBlock (O.above order.now) }
{
    clause_core::one_answer(order);
}

/// By each order, a goal has one first routine proof, or none.
pub fn one_proof<O: TermOrder>()
    ensures { (o : O) → OneProof (O.above o) }
{}

/// What proves a clause by lemmas proves it after claims that prove them.
pub fn proves_behind_claims<O: TermOrder>(order: &O)
    ensures { ProvesBehindClaims (O.above order.now) }
{}

/// Each step of a routine block may appear in a report.
pub fn routine_blocks_stand<O: TermOrder>(order: &O)
    ensures { RoutineBlocksStand (O.above order.now) }
{
    clause_core::tidying_laws();
    descent::children_are_sorted(order);
}

/// The definitions say of naturals with addition what one works out by hand.
pub fn worked_examples()
    ensures { WorkedExamples }
{
    spec_core::worked_examples();
}
