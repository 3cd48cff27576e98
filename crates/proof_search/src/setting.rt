//! What stays the same for a goal: lemmas as clauses, the table of rules, and which of them may
//! fit.

ghost use Rattle.std.specs.Prelude.{◌≡◌, suc, IfOk, MatchOption, map};
ghost use Rattle.spec_core.specs.WellSorted.{IsWellSorted};
ghost use Rattle.clause_core.specs.RuleInstances.{RuleAt, IsInstance};
ghost use Rattle.clause_core.specs.Tidied.{goal_clause};
ghost use Rattle.proof_search.specs.FallingSides.{HasSorts, LemmasFall};
ghost use Rattle.proof_search.specs.Settings.{IsSetting, AreLemmas, IsLemma};

use crate::falling_sides::{FallingSides, lemma_sides};
use clause_core::{Clause, of_goal, tidying_laws};
use fitting_lists::{LeadingPlace, leading, may_become};
use spec_core::{Goal, RuleTable, Spec};
use std::alloc::Global;
use term_core::{Name, OutOfMemory, Term};
use term_order::TermOrder;

/// What stays the same while the proof of a goal is looked for: the specification, the numbers of
/// the lemmas with these goals as clauses, and the table of each function's rules.
#[derive(Drop)]
pub(crate) struct Setting<'a> {
    pub(crate) spec: &'a Spec,
    pub(crate) lemmas: &'a [u32],
    pub(crate) goals: Vec<LemmaGoal>,
    pub(crate) rules: RuleTable,
}

/// A goal that is a lemma: its name, its tidied clause, and what is asked of it at each node.
#[derive(Drop)]
pub(crate) struct LemmaGoal {
    pub(crate) name: Name,
    pub(crate) clause: Clause,
    /// The place of the clause's leading equation, if it has one.
    pub(crate) leading: Option<LeadingPlace>,
    /// The sides from which it rewrites.
    pub(crate) sides: FallingSides,
}

impl<'a> Setting<'a> {
    pub(crate) fn new<O: TermOrder>(
        alloc: Global,
        order: &O,
        spec: &'a Spec,
        lemmas: &'a [u32],
    ) -> Result<Setting<'a>, OutOfMemory>
        requires { IsWellSorted spec.now }
        ensures { IfOk result (λ made. IsSetting made × (made.spec.now ≡ spec.now)
            × (made.lemmas.now ≡ lemmas.now) × LemmasFall (O.above order.now) made) }
    {
        let goals = goals_of(alloc, order, spec, lemmas)?;
        let rules = RuleTable::new(alloc, spec)?;
        Ok(Setting {
            spec,
            lemmas,
            goals,
            rules,
        })
    }

    /// The number of the rule at this place, which counts from 1, if the term may be an instance
    /// of its left side: if some symbol differs, it isn't one.
    pub(crate) fn fitting(&self, place: usize, term: &Term) -> Option<u32>
        requires { IsSetting self.now }
        ensures { MatchOption result
            ((by : RuleAt self.now.spec.now (suc place)) → IsInstance by.rule term.now → ⊥)
            (λ number. number ≡ suc place) }
    {
        let rule = self.spec.rules.as_slice().get(place)?;
        if may_become(&rule.left, term) {
            Some(place as u32 + 1)
        } else {
            None
        }
    }
}

/// The goals of these numbers, in the order of the specification.
fn goals_of<O: TermOrder>(
    alloc: Global,
    order: &O,
    spec: &Spec,
    lemmas: &[u32],
) -> Result<Vec<LemmaGoal>, OutOfMemory>
    requires { IsWellSorted spec.now }
    ensures { IfOk result (λ made.
        AreLemmas (O.above order.now) spec.now lemmas.now made.items) }
{
    tidying_laws();
    let mut made = Vec::new(alloc);
    for (number, goal) in spec.goals.as_slice().iter().enumerate() {
        if !lemmas.contains(&(number as u32)) {
            continue;
        }
        made.push(lemma_of(alloc, order, goal)?)?;
    }
    Ok(made)
}

/// The goal as a lemma.
fn lemma_of<O: TermOrder>(alloc: Global, order: &O, goal: &Goal) -> Result<LemmaGoal, OutOfMemory>
    requires { HasSorts (goal_clause goal.now) }
    ensures { IfOk result (IsLemma (O.above order.now) goal.now) }
{
    let name = goal.name.copy(alloc)?;
    let clause = of_goal(alloc, goal)?;
    let leading = leading(alloc, &clause)?;
    let sides = lemma_sides(alloc, order, &clause)?;
    Ok(LemmaGoal {
        name,
        clause,
        leading,
        sides,
    })
}
