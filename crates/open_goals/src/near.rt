//! What is near at a node: lemmas and the hypothesis that fit there and lack something.

ghost use Rattle.std.specs.Prelude.{Contains, IfOk};
ghost use Rattle.std.specs.Option.{IfSome};
ghost use Rattle.std.specs.List.{AllByRecursion};
ghost use Rattle.open_goals.specs.Stops.{IsNear};

use crate::fitting::{equation_match, missing_premise, pair, small_instance};
use crate::gaps::Gap;
use clause_core::{Clause, of_goal};
use fitting_lists::has_all_variables;
use matching::matches;
use spec_core::{Equation, Goal, Spec};
use std::alloc::Global;
use term_core::{OutOfMemory, Term, TermNode};
use term_order::TermOrder;

/// How many lemmas are said to be near a node.
const MOST_NEAR: usize = 2;

/// Where an equation comes from: from the goal itself, or from the goal with this number.
#[derive(Clone, Copy)]
pub enum Source {
    Hypothesis,
    Lemma(u32),
}

/// An equation that fits at a node, and what it lacks.
#[derive(Drop)]
pub struct Near {
    pub source: Source,
    pub gap: Gap,
}

/// A clause with one conclusion that is used from a side of it, and the node's clause.
#[derive(Clone, Copy)]
struct Use<'a> {
    from: &'a Term,
    to: &'a Term,
    lemma: &'a Clause,
    hypothesis: bool,
    clause: &'a Clause,
}

/// What is near at the node of the clause.
pub(crate) fn nears<O: TermOrder>(
    alloc: Global,
    order: &O,
    spec: &Spec,
    goal: &Goal,
    lemmas: &[u32],
    clause: &Clause,
) -> Result<Vec<Near>, OutOfMemory>
    ensures { IfOk result (λ made. AllByRecursion (IsNear lemmas.now) made.items) }
{
    let mut made = lemma_nears(alloc, order, spec, lemmas, clause)?;
    let own = of_goal(alloc, goal)?;
    let found = gap_of(alloc, order, &own, true, clause)?;
    let Some(gap) = found else {
        return Ok(made);
    };
    let source = Source::Hypothesis;
    made.push(Near { source, gap })?;
    Ok(made)
}

/// The lemmas that are near.
fn lemma_nears<O: TermOrder>(
    alloc: Global,
    order: &O,
    spec: &Spec,
    lemmas: &[u32],
    clause: &Clause,
) -> Result<Vec<Near>, OutOfMemory>
    ensures { IfOk result (λ made. AllByRecursion (IsNear lemmas.now) made.items) }
{
    let mut made = Vec::new(alloc);
    for place in 0..lemmas.len() {
        if made.len() >= MOST_NEAR {
            return Ok(made);
        }
        let found = lemma_near(alloc, order, spec, lemmas, place, clause)?;
        let Some(near) = found else {
            continue;
        };
        made.push(near)?;
    }
    Ok(made)
}

/// Whether the lemma at this place is near.
fn lemma_near<O: TermOrder>(
    alloc: Global,
    order: &O,
    spec: &Spec,
    lemmas: &[u32],
    place: usize,
    clause: &Clause,
) -> Result<Option<Near>, OutOfMemory>
    ensures { IfOk result (λ found. IfSome found (IsNear lemmas.now)) }
{
    let Some(number) = lemma_at(lemmas, place) else {
        return Ok(None);
    };
    let Some(goal) = spec.goals.as_slice().get(*number as usize) else {
        return Ok(None);
    };
    let lemma = of_goal(alloc, goal)?;
    let Some(gap) = gap_of(alloc, order, &lemma, false, clause)? else {
        return Ok(None);
    };
    let source = Source::Lemma(*number);
    Ok(Some(Near { source, gap }))
}

fn lemma_at(lemmas: &[u32], place: usize) -> Option<&u32>
    ensures { IfSome result (λ number. Contains lemmas.now number.now) }
{
    lemmas.get(place)
}

/// What the lemma lacks if it fits at the node of the clause.
fn gap_of<O: TermOrder>(
    alloc: Global,
    order: &O,
    lemma: &Clause,
    hypothesis: bool,
    clause: &Clause,
) -> Result<Option<Gap>, OutOfMemory> {
    let [conclusion] = lemma.conclusions.as_slice() else {
        return Ok(None);
    };
    let premise = missing_for(alloc, lemma, conclusion, clause)?;
    if let Some(premise) = premise {
        return Ok(Some(Gap::Says(premise)));
    }
    let Equation { left, right } = conclusion;
    for (from, to) in [(left, right), (right, left)] {
        let by = Use {
            from,
            to,
            lemma,
            hypothesis,
            clause,
        };
        let found = gap_in_clause(alloc, order, by)?;
        if found.is_some() {
            return Ok(found);
        }
    }
    Ok(None)
}

/// The only premise that is missing where the lemma says a conclusion of the clause.
fn missing_for(
    alloc: Global,
    lemma: &Clause,
    conclusion: &Equation,
    clause: &Clause,
) -> Result<Option<Equation>, OutOfMemory> {
    let whole = pair(alloc, &conclusion.left, &conclusion.right)?;
    if !has_all_variables(lemma, &whole) {
        return Ok(None);
    }
    for own in &clause.conclusions {
        if let Some(theta) = equation_match(alloc, conclusion, own)? {
            let missing = missing_premise(alloc, lemma, &theta, clause)?;
            if missing.is_some() {
                return Ok(missing);
            }
        }
    }
    Ok(None)
}

/// What is lacking at the first term of the clause at which the side fits. A side that has only
/// some of the variables, or is below the other one, is no side to rewrite from.
fn gap_in_clause<O: TermOrder>(
    alloc: Global,
    order: &O,
    by: Use<'_>,
) -> Result<Option<Gap>, OutOfMemory> {
    if !has_all_variables(by.lemma, by.from) || order.greater(by.to, by.from) {
        return Ok(None);
    }
    let found = gap_in_equations(alloc, order, by, by.clause.premises.as_slice())?;
    if found.is_some() {
        return Ok(found);
    }
    gap_in_equations(alloc, order, by, by.clause.conclusions.as_slice())
}

fn gap_in_equations<O: TermOrder>(
    alloc: Global,
    order: &O,
    by: Use<'_>,
    equations: &[Equation],
) -> Result<Option<Gap>, OutOfMemory> {
    for equation in equations {
        let found = gap_in_term(alloc, order, by, &equation.left)?;
        if found.is_some() {
            return Ok(found);
        }
        let found = gap_in_term(alloc, order, by, &equation.right)?;
        if found.is_some() {
            return Ok(found);
        }
    }
    Ok(None)
}

#[cycle(gap)]
fn gap_in_term<O: TermOrder>(
    alloc: Global,
    order: &O,
    by: Use<'_>,
    term: &Term,
) -> Result<Option<Gap>, OutOfMemory> {
    let TermNode::App(_, arguments) = &term.node else {
        return Ok(None);
    };
    let found = gap_at(alloc, order, by, term)?;
    if found.is_some() {
        return Ok(found);
    }
    gap_in_terms(alloc, order, by, arguments.as_slice())
}

#[cycle(gap)]
fn gap_in_terms<O: TermOrder>(
    alloc: Global,
    order: &O,
    by: Use<'_>,
    terms: &[Term],
) -> Result<Option<Gap>, OutOfMemory> {
    for term in terms {
        let found = gap_in_term(alloc, order, by, term)?;
        if found.is_some() {
            return Ok(found);
        }
    }
    Ok(None)
}

/// What is lacking at this term, if the side fits there.
fn gap_at<O: TermOrder>(
    alloc: Global,
    order: &O,
    by: Use<'_>,
    term: &Term,
) -> Result<Option<Gap>, OutOfMemory> {
    let Some(theta) = matches(alloc, by.from, term)? else {
        return Ok(None);
    };
    let Some(other) = small_instance(alloc, by.to, &theta)? else {
        return Ok(None);
    };
    if other.same(term) {
        return Ok(None);
    }
    let term = term.copy(alloc)?;
    if !order.greater(&term, &other) {
        return Ok(Some(Gap::NotBelow { term, other }));
    }
    if by.hypothesis {
        return Ok(Some(Gap::TooLarge { term, other }));
    }
    let Some(premise) = missing_premise(alloc, by.lemma, &theta, by.clause)? else {
        return Ok(None);
    };
    Ok(Some(Gap::Lacks { term, premise }))
}
