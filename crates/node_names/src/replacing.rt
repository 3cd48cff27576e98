//! Clauses with another term at a place.

use clause_core::{Clause, Place, side};
use matching::matches;
use spec_core::{Equation, Guard, Rule, boolean};
use std::alloc::Global;
use substitutions::Subst;
use term_core::{OutOfMemory, Seq, Term, front};

/// The clause with another term at the place, if there is a term.
pub(crate) fn holding(
    alloc: Global,
    clause: &Clause,
    place: &Place,
    new: Term,
) -> Result<Option<Clause>, OutOfMemory> {
    let Some(_) = clause.term_at(place) else {
        return Ok(None);
    };
    Ok(Some(clause.holding(alloc, place, new)?))
}

/// The clause with the term at the place rewritten by the rule, whose tests are further premises.
/// Where the guards are among the premises already, these bring no variable to the clause.
pub(crate) fn rewritten(
    alloc: Global,
    clause: &Clause,
    place: &Place,
    rule: &Rule,
) -> Result<Option<Clause>, OutOfMemory> {
    let Some(term) = clause.term_at(place) else {
        return Ok(None);
    };
    let Some(theta) = matches(alloc, &rule.left, term)? else {
        return Ok(None);
    };
    let new = theta.apply(alloc, &rule.right)?;
    let made = clause.holding(alloc, place, new)?;
    Ok(Some(with_tests(alloc, made, &theta, rule.guards.as_slice())?))
}

/// The clause with the instances of the tests as further premises.
fn with_tests(
    alloc: Global,
    clause: Clause,
    theta: &Subst,
    guards: &[Guard],
) -> Result<Clause, OutOfMemory> {
    let Clause {
        ctx,
        mut premises,
        conclusions,
    } = clause;
    for guard in guards {
        let left = theta.apply(alloc, &guard.test)?;
        let right = boolean(alloc, guard.wanted);
        premises.push(Equation { left, right })?;
    }
    Ok(Clause {
        ctx,
        premises,
        conclusions,
    })
}

/// The clause with the term at the place rewritten by the first conclusion of the other clause,
/// with the terms for its variables, from left to right where `left` is true.
pub(crate) fn replaced(
    alloc: Global,
    clause: &Clause,
    other: &Clause,
    terms: &[Term],
    place: &Place,
    left: bool,
) -> Result<Option<Clause>, OutOfMemory> {
    let Some((equation, _)) = front(other.conclusions.as_slice()) else {
        return Ok(None);
    };
    let theta = entries(alloc, terms)?;
    let new = theta.apply(alloc, side(equation, !left))?;
    holding(alloc, clause, place, new)
}

/// The terms as the entries of the first variables.
fn entries(alloc: Global, terms: &[Term]) -> Result<Subst, OutOfMemory> {
    let mut made = Seq::new(alloc);
    for term in terms {
        made.push(Some(term.copy(alloc)?))?;
    }
    Ok(Subst { terms: made })
}
