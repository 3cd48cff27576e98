ghost use Rattle.test_sets.specs.Examples.{WorkedExamples};
ghost use Rattle.test_sets.specs.Laws.{CoverIsItsRow, TestSetsCover};

use term_order::TermOrder;

/// The test set of a sort is of patterns of the sort and covers it.
pub fn test_sets_cover()
    ensures { TestSetsCover }
{}

/// What is answered of patterns for a variable is what the row `cover` of the table says.
pub fn cover_is_its_row<O: TermOrder>(order: &O)
    ensures { CoverIsItsRow (O.above order.now) }
{}

/// The definitions say of naturals what one works out by hand.
pub fn worked_examples()
    ensures { WorkedExamples }
{
    coverage_check::worked_examples();
}
