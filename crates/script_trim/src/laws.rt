ghost use Rattle.script_trim.specs.Examples.{WorkedExamples};
ghost use Rattle.script_trim.specs.Laws.{ClaimsAreApart, CutBlocks, CutsTrim, TestsDecide};
ghost use Rattle.script_trim.specs.Standing.{TrimmedReportsStand};

use term_order::TermOrder;

/// Whether a closing step could close a node of an accepted report is decided at this node, by the
/// links of the nodes that stay and by the length of the text.
pub fn tests_decide<O: TermOrder>(order: &O)
    ensures { TestsDecide (O.above order.now) }
{
    clause_core::one_relation(order);
}

/// First cuts come to an end, at one report, which trims the first one.
pub fn cuts_trim<O: TermOrder>(order: &O)
    ensures { CutsTrim (O.above order.now) }
{
    clause_core::one_relation(order);
}

/// What a block that is cut makes.
pub fn cut_blocks<O: TermOrder>(order: &O)
    ensures { CutBlocks (O.above order.now) }
{
    clause_core::one_relation(order);
}

/// What could be closed in a claim doesn't depend on the steps of the other ones.
pub fn claims_are_apart<O: TermOrder>(order: &O)
    ensures { ClaimsAreApart (O.above order.now) }
{
    clause_core::one_relation(order);
}

/// A report to which an accepted one leads has a text if the accepted one has.
pub fn trimmed_reports_stand<O: TermOrder>(order: &O)
    ensures { TrimmedReportsStand (O.above order.now) }
{
    clause_core::one_relation(order);
}

/// The definitions say of a cut on naturals what one works out by hand.
pub fn worked_examples()
    ensures { WorkedExamples }
{
    spec_core::worked_examples();
}
