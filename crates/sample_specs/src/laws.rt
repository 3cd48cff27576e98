ghost use Rattle.term_order.specs.Laws.{IsTermOrder, HasRanks};
ghost use Rattle.sample_specs.specs.Examples.{WorkedExamples};
ghost use Rattle.sample_specs.specs.SumOrder.{AboveInSums, RankInSums};

/// The order of sums is one of terms, and has ranks.
pub fn sums_are_ordered()
    ensures order { IsTermOrder AboveInSums }
    ensures ranks { HasRanks AboveInSums RankInSums }
{}

/// The order of sums says of a few terms what one works out by hand.
pub fn worked_examples()
    ensures { WorkedExamples }
{}
