ghost use Rattle.kbo_order.specs.Examples.{WorkedExamples};
ghost use Rattle.kbo_order.specs.RankExamples.{RankExamples};

/// The ordering by weights says of a few terms what one works out by hand.
pub fn worked_examples()
    ensures { WorkedExamples }
{}

/// A few small terms have the ranks that one works out by hand.
pub fn rank_examples()
    ensures { RankExamples }
{}
