ghost use Rattle.plain_search.specs.Laws.{OneBlock, OneChoice, PlainBlocks};
ghost use Rattle.plain_search.specs.StandingBlocks.{PlainBlocksStand};

use term_order::TermOrder;

/// One step at most is chosen at a node.
pub fn one_choice<O: TermOrder>(order: &O)
    ensures { OneChoice (O.above order.now) }
{}

/// By each order, a goal has one block at most on a variable.
pub fn one_block<O: TermOrder>()
    ensures { (o : O) → OneBlock (O.above o) }
{
    clause_core::tidying_laws();
}

/// A goal with a plain proof has its block.
pub fn plain_blocks<O: TermOrder>(order: &O)
    ensures { PlainBlocks (O.above order.now) }
{
    clause_core::tidying_laws();
    plain_proof::first_steps(order);
}

/// Each step of the block of a plain proof may appear in a report.
pub fn plain_blocks_stand<O: TermOrder>(order: &O)
    ensures { PlainBlocksStand (O.above order.now) }
{
    clause_core::tidying_laws();
    descent::children_are_sorted(order);
}
