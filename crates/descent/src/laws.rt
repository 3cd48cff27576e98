ghost use Rattle.descent.specs.Descent.{StepsDescend};
ghost use Rattle.descent.specs.Examples.{WorkedExamples};
ghost use Rattle.descent.specs.OneValue.{ValuesRankLower};
ghost use Rattle.descent.specs.SortedChildren.{ChildrenAreSorted};
ghost use Rattle.descent.specs.WeightLaws.{ClausesHaveOneWeight, TidyingKeepsWeight};

use term_order::TermOrder;

/// Every sorted term without variables has one value, which ranks no higher in any context.
pub fn values_rank_lower<O: TermOrder>(order: &O)
    ensures { ValuesRankLower (O.above order.now) (O.rank order.now) }
{}

/// Every sorted clause has one weight under values of its variables' sorts.
pub fn one_weight<O: TermOrder>(order: &O)
    ensures { ClausesHaveOneWeight (O.rank order.now) }
{}

/// Tidying a clause keeps its weights.
pub fn tidying_keeps_weight<O: TermOrder>(order: &O)
    ensures { TidyingKeepsWeight (O.rank order.now) }
{}

/// Each child that a step makes of a sorted node is sorted, tidied and within the limits.
pub fn children_are_sorted<O: TermOrder>(order: &O)
    ensures { ChildrenAreSorted (O.above order.now) }
{
    clause_core::tidying_laws();
}

/// A failing instance of a node goes on, by each step: a child fails, or a node that is referred
/// to, under values that weigh what the relation says.
pub fn steps_descend<O: TermOrder>(order: &O)
    ensures { StepsDescend (O.above order.now) (O.rank order.now) }
{
    values_rank_lower(order);
}

/// A sum of naturals has the value, and a small clause the weight, that one works out by hand.
pub fn worked_examples()
    ensures { WorkedExamples }
{
    clause_core::worked_examples();
    spec_core::worked_examples();
}
