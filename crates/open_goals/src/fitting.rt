//! Instances of lemmas and hypotheses.

use clause_core::{Clause, MOST_SYMBOLS, among, instance_size, is_identity};
use matching::matches;
use spec_core::Equation;
use std::alloc::Global;
use substitutions::Subst;
use term_core::{OutOfMemory, SymId, Term, Terms};

/// The substitution that makes the equation the other one, as written or with its sides swapped.
pub(crate) fn equation_match(
    alloc: Global,
    equation: &Equation,
    other: &Equation,
) -> Result<Option<Subst>, OutOfMemory> {
    let pattern = pair(alloc, &equation.left, &equation.right)?;
    let found = matches(alloc, &pattern, &pair(alloc, &other.left, &other.right)?)?;
    if found.is_some() {
        return Ok(found);
    }
    matches(alloc, &pattern, &pair(alloc, &other.right, &other.left)?)
}

/// One term that has both.
pub(crate) fn pair(alloc: Global, left: &Term, right: &Term) -> Result<Term, OutOfMemory> {
    let mut sides = Vec::new(alloc);
    sides.push(left.copy(alloc)?)?;
    sides.push(right.copy(alloc)?)?;
    // Any symbol does.
    Ok(Term::app(SymId(0), Terms::from_vec(alloc, sides)?))
}

/// The instance of the term, if it isn't larger than a clause in a proof.
pub(crate) fn small_instance(
    alloc: Global,
    term: &Term,
    theta: &Subst,
) -> Result<Option<Term>, OutOfMemory> {
    if instance_size(term, theta, MOST_SYMBOLS + 1) > MOST_SYMBOLS {
        return Ok(None);
    }
    Ok(Some(theta.apply(alloc, term)?))
}

/// The instance of the lemma's only premise that isn't among those of the clause.
pub(crate) fn missing_premise(
    alloc: Global,
    lemma: &Clause,
    theta: &Subst,
    clause: &Clause,
) -> Result<Option<Equation>, OutOfMemory> {
    let mut missing = None;
    for premise in &lemma.premises {
        let (Some(left), Some(right)) = (
            small_instance(alloc, &premise.left, theta)?,
            small_instance(alloc, &premise.right, theta)?,
        ) else {
            return Ok(None);
        };
        let instance = Equation { left, right };
        if among(&instance, clause.premises.as_slice()) || is_identity(&instance) {
            continue;
        }
        if missing.is_some() {
            return Ok(None);
        }
        missing = Some(instance);
    }
    Ok(missing)
}
