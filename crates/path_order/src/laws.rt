ghost use Rattle.path_order.specs.BoundedLaws.{FinitelyManyBelow, SameWithinDepth};
ghost use Rattle.path_order.specs.ByNumber.{OrdersByNumber};
ghost use Rattle.path_order.specs.Examples.{WorkedExamples};
ghost use Rattle.path_order.specs.RankExamples.{RankExamples};

/// A bound that is no less than the smaller term's depth bounds nothing.
pub fn same_within_depth()
    ensures { SameWithinDepth }
{}

/// Within a bound and over the first symbols, finitely many terms are below a ground term.
pub fn finitely_many_below()
    ensures { FinitelyManyBelow }
{}

/// Levels and statuses that are written out by number order terms as the numbers do.
pub fn orders_by_number()
    ensures { OrdersByNumber }
{}

/// The path ordering says of a few sums what one works out by hand.
pub fn worked_examples()
    ensures { WorkedExamples }
{}

/// A few small terms have the ranks that one works out by hand.
pub fn rank_examples()
    ensures { RankExamples }
{}
