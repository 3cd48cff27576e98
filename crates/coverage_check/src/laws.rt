ghost use Rattle.coverage_check.specs.Examples.{WorkedExamples};
ghost use Rattle.coverage_check.specs.Laws.{AdmitsInstances, OneNamed, TreeDecidesGroups};

/// A row of linear patterns admits the values that it has as an instance.
pub fn admits_instances()
    ensures { AdmitsInstances }
{}

/// The values that are named for rows and sorts are missing, and no others are named for them.
pub fn one_named()
    ensures { OneNamed }
{}

/// What [`tree`](crate::tree) answers of the rules with one left side is right of the left side's
/// group: the group is whole if and only if the answer is `Whole`.
pub fn tree_decides_groups()
    ensures { TreeDecidesGroups }
{}

/// The definitions say of naturals what one works out by hand.
pub fn worked_examples()
    ensures { WorkedExamples }
{}
