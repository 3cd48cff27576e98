ghost use Rattle.substitutions.specs.Examples.{WorkedExamples};
ghost use Rattle.substitutions.specs.Laws.{InstancesKeepSorts};

/// Entries that fit keep the sort of each term.
pub fn instances_keep_sorts()
    ensures { InstancesKeepSorts }
{}

/// The definitions say of a few substitutions what one works out by hand.
pub fn worked_examples()
    ensures { WorkedExamples }
{}
