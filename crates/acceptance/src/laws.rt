ghost use Rattle.acceptance.specs.Examples.{WorkedExamples};
ghost use Rattle.acceptance.specs.Laws.{BlocksAreWhole, OneVerdict};

use term_order::TermOrder;

/// By each order, a report is accepted or has one first refusal, and never both.
pub fn one_verdict<O: TermOrder>()
    ensures { (o : O) → OneVerdict (O.above o) }
{}

/// What the steps of a block make meets what [`allowed`](crate::allowed) requires, if each node
/// has its step.
pub fn blocks_are_whole<O: TermOrder>(order: &O)
    ensures { BlocksAreWhole (O.above order.now) }
{}

/// The definitions say of reports on naturals with addition what one works out by hand.
pub fn worked_examples()
    ensures { WorkedExamples }
{
    clause_core::worked_examples();
    spec_core::worked_examples();
    spec_core::one_value();
}
