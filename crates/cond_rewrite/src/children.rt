//! The clause with another term at the place, tidied and within the limits.

ghost use Rattle.std.specs.Prelude.{◌≡◌, ◌<◌, ◌++◌, IfOk, MatchOption, map};
ghost use Rattle.term_core.specs.Tree.{trees_of, tree_size, sizes};
ghost use Rattle.substitutions.specs.Substitution.{apply};
ghost use Rattle.clause_core.specs.Clauses.{sides_of};
ghost use Rattle.clause_core.specs.Places.{TermAt, holding};
ghost use Rattle.clause_core.specs.Tidied.{IsTidiedWithin};
ghost use Rattle.cond_rewrite.specs.Applied.{applied_guard, applied_case};

use crate::instances::small_instance;
use clause_core::{Clause, Place, tidied_within};
use spec_core::{Equation, Guard, Rule, boolean};
use std::alloc::Global;
use substitutions::Subst;
use term_core::{OutOfMemory, Seq, Term};

/// The clause whose place holds the instance of the term, or None if that alone passes the
/// limits of clauses.
pub(crate) fn rewritten(
    alloc: Global,
    clause: &Clause,
    place: &Place,
    theta: &Subst,
    right: &Term,
) -> Result<Option<Clause>, OutOfMemory>
    requires { TermAt clause.now place.now }
    ensures { IfOk result (λ answer. (p : TermAt clause.now place.now) →
        MatchOption answer (4000 < tree_size (apply theta.now.terms right.now))
        (λ made. made ≡ holding p (apply theta.now.terms right.now))) }
{
    let Some(new) = small_instance(alloc, right, theta)? else {
        return Ok(None);
    };
    Ok(Some(clause.holding(alloc, place, new)?))
}

/// The child of `case` by a rule of the group, tidied, or None if it passes the limits of
/// clauses.
pub(crate) fn case_child(
    alloc: Global,
    clause: &Clause,
    place: &Place,
    theta: &Subst,
    rule: &Rule,
) -> Result<Option<Clause>, OutOfMemory>
    requires { TermAt clause.now place.now }
    ensures { IfOk result (λ answer. (p : TermAt clause.now place.now) →
        IsTidiedWithin (applied_case p theta.now.terms rule.now) answer) }
{
    let Some(made) = rewritten(alloc, clause, place, theta, &rule.right)? else {
        return Ok(None);
    };
    let Some(guards) = guard_equations(alloc, theta, rule.guards.as_slice())? else {
        return Ok(None);
    };
    let premises = joined(made.premises, guards)?;
    let split = Clause {
        ctx: made.ctx,
        premises,
        conclusions: made.conclusions,
    };
    tidied_within(alloc, split)
}

/// Each guard's instance, equated to the constant that it wants, or None if one of these alone
/// has more symbols than a clause in a proof.
fn guard_equations(
    alloc: Global,
    theta: &Subst,
    guards: &[Guard],
) -> Result<Option<Seq<Equation>>, OutOfMemory>
    ensures { IfOk result (λ answer. MatchOption answer
        (4000 < sizes (trees_of (sides_of (map (applied_guard theta.now.terms) guards.now))))
        (λ made. made ≡ map (applied_guard theta.now.terms) guards.now)) }
{
    let mut made = Seq::new(alloc);
    for guard in guards {
        let Some(left) = small_instance(alloc, &guard.test, theta)? else {
            return Ok(None);
        };
        let right = boolean(alloc, guard.wanted);
        made.push(Equation { left, right })?;
    }
    Ok(Some(made))
}

/// The equations of both lists, those of the first one in front.
fn joined(first: Seq<Equation>, second: Seq<Equation>) -> Result<Seq<Equation>, OutOfMemory>
    ensures { IfOk result (λ made. made ≡ first ++ second) }
{
    let mut made = first.into_vec();
    let mut behind = second.into_vec();
    made.append(&mut behind)?;
    Ok(Seq::from_vec(made))
}
