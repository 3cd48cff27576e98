ghost use Rattle.clause_core.specs.Examples.{WorkedExamples};
ghost use Rattle.clause_core.specs.ClauseExamples.{ClauseExamples};
ghost use Rattle.clause_core.specs.ClauseLaws.{OneRelation, TidyingLaws};
ghost use Rattle.clause_core.specs.RuleUses.{RulesRankLower};

use term_order::TermOrder;

/// Each use of a rule of an admitted specification ranks lower, in any context.
pub fn rules_rank_lower<O: TermOrder>(order: &O)
    ensures { RulesRankLower (O.above order.now) (O.rank order.now) }
{}

/// What a clause is tidied to is tidied, and stays as it is. It is within the limits if the
/// clause is, sorted if the clause is, and fails if the clause does.
pub fn tidying_laws()
    ensures { TidyingLaws }
{}

/// Two clauses compare in one way.
pub fn one_relation<O: TermOrder>(order: &O)
    ensures { OneRelation (O.above order.now) }
{}

/// Naturals with addition are admitted by the order of sums, and what is near to them isn't.
pub fn worked_examples()
    ensures { WorkedExamples }
{
    spec_core::worked_examples();
}

/// The definitions say of small clauses what one works out by hand.
pub fn clause_examples()
    ensures { ClauseExamples }
{}
