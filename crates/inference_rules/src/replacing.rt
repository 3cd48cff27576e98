//! The steps `context`, `hyp` and `lemma`.

ghost use Rattle.std.specs.Prelude.{◌≡◌, [], IfOk, MatchOption, Contains};
ghost use Rattle.std.specs.List.{AllZip};
ghost use Rattle.spec_core.specs.declared.records.Spec.{Spec as SpecOf};
ghost use Rattle.clause_core.specs.ClauseInstances.{clause_instance, equation_instance};
ghost use Rattle.clause_core.specs.Limits.{IsWithin};
ghost use Rattle.clause_core.specs.Replacing.{Rewrites, context_row, hyp_row, lemma_row};
ghost use Rattle.clause_core.specs.Replacing.{rewritten_by};
ghost use Rattle.clause_core.specs.Places.{side as side_of};
ghost use Rattle.clause_core.specs.Says.{IsReference};
ghost use Rattle.inference_rules.specs.Answers.{Answered, clauses_of};
ghost use Rattle.inference_rules.specs.Nodes.{referred_to};

use crate::making::{Spot, child_holding, reference};
use crate::nodes::{Scope, StepError};
use crate::referring::{entries_here, instances_are_there, node_at, usable_goal};
use clause_core::{Children, Clause, Place, Reference, Why, instance, of_goal, side};
use cond_rewrite::is_instance;
use spec_core::{Equation, Spec};
use std::alloc::Global;
use substitutions::Subst;
use term_core::{Name, OutOfMemory, Seq, Term, front};
use term_order::TermOrder;

/// How an equation that is referred to rewrites: by the instance with these terms for its
/// variables, the term at this place, from left to right if `left` is true.
#[derive(Drop)]
struct Rewriting<'a> {
    terms: &'a [Term],
    place: &'a Place,
    left: bool,
}

/// `context`: the term at the place is a side of the premise and becomes the other side. The
/// premise is used from left to right if `left` is true.
pub(crate) fn context<O: TermOrder>(
    alloc: Global,
    order: &O,
    here: &Clause,
    place: &Place,
    number: u16,
    left: bool,
) -> Result<Children, StepError>
    requires { IsWithin here.now }
    ensures { (spec : SpecOf) → Answered (O.above order.now) here.now []
        (context_row spec here.now place.now number left) result }
{
    let (Some(term), Some(premise)) = (here.term_at(place), here.equation(false, number)) else {
        return Err(StepError::Why(Why::NoSuchPlace));
    };
    if !side(premise, left).same(term) {
        return Err(StepError::Why(Why::DoesNotFit));
    }
    let other = side(premise, !left).copy(alloc)?;
    let old = Spot { place, term };
    child_holding(alloc, order, here, &old, other, Seq::new(alloc))
}

/// `hyp`: the term at the place is a side of the one conclusion of an instance of the node with
/// this number and becomes the other side.
pub(crate) fn hyp<O: TermOrder>(
    scope: &Scope<O>,
    here: &Clause,
    number: u32,
    terms: &[Term],
    place: &Place,
    left: bool,
) -> Result<Children, StepError>
    requires { IsWithin here.now }
    ensures { Answered (O.above scope.now.order.now) here.now []
        (hyp_row scope.now.spec.now here.now (clauses_of scope.now.nodes.now) number
        terms.now place.now left) result }
{
    let Some(node) = node_at(scope.nodes, number) else {
        return Err(StepError::Why(Why::NoSuchNode));
    };
    let how = Rewriting { terms, place, left };
    rewrite(scope, here, &node.clause, Some(number), &how)
}

/// `lemma`: the same with an instance of the goal of this name, of those that may be used.
pub(crate) fn lemma<O: TermOrder>(
    scope: &Scope<O>,
    here: &Clause,
    name: &Name,
    terms: &[Term],
    place: &Place,
    left: bool,
) -> Result<Children, StepError>
    requires { IsWithin here.now }
    ensures { Answered (O.above scope.now.order.now) here.now []
        (lemma_row scope.now.spec.now here.now (Contains scope.now.proved.now) name.now
        terms.now place.now left) result }
{
    let Some(goal) = usable_goal(scope.spec, scope.proved, name) else {
        return Err(StepError::Why(Why::NotProvedBefore));
    };
    let lemma = of_goal(scope.alloc, goal)?;
    let how = Rewriting { terms, place, left };
    rewrite(scope, here, &lemma, None, &how)
}

/// The clause here with the other side of an instance's conclusion at the place, and a reference
/// to the instance if it is one of a node.
fn rewrite<O: TermOrder>(
    scope: &Scope<O>,
    here: &Clause,
    clause: &Clause,
    node: Option<u32>,
    how: &Rewriting,
) -> Result<Children, StepError>
    requires { IsWithin here.now }
    ensures { Answered (O.above scope.now.order.now) here.now []
        (rewritten_by scope.now.spec.now here.now clause.now
        how.now.terms.now how.now.place.now how.now.left (referred_to node)) result }
{
    let alloc = scope.alloc;
    let theta = entries_here(alloc, scope.spec, here, clause, how.terms)?;
    let Some(term) = here.term_at(how.place) else {
        return Err(StepError::Why(Why::NoSuchPlace));
    };
    let Some(equation) = usable_conclusion(alloc, here, clause, &theta, term, how.left)? else {
        return Err(StepError::Why(Why::DoesNotFit));
    };
    let refs = references(alloc, scope.order, here, node, clause, &theta)?;
    let other = theta.apply(alloc, side(equation, !how.left))?;
    let old = Spot {
        place: how.place,
        term,
    };
    child_holding(alloc, scope.order, here, &old, other, refs)
}

/// A reference to the node with this number, if there is one, with the instance of its clause.
fn references<O: TermOrder>(
    alloc: Global,
    order: &O,
    here: &Clause,
    node: Option<u32>,
    clause: &Clause,
    theta: &Subst,
) -> Result<Seq<Reference>, OutOfMemory>
    requires here { IsWithin here.now }
    requires instance { IsWithin (clause_instance theta.now.terms here.now.ctx clause.now) }
    ensures { IfOk result (AllZip (IsReference (O.above order.now) here.now)
        (referred_to node (clause_instance theta.now.terms here.now.ctx clause.now))) }
{
    let mut refs = Seq::new(alloc);
    if let Some(number) = node {
        let instance = instance(alloc, clause, theta, here.ctx.as_slice())?;
        refs.push(reference(alloc, order, here, number, &instance)?)?;
    }
    Ok(refs)
}

/// The one conclusion of the clause, if the instance of this side of it is the term and the
/// premises of the instance are there.
fn usable_conclusion<'a>(
    alloc: Global,
    here: &Clause,
    clause: &'a Clause,
    theta: &Subst,
    term: &Term,
    left: bool,
) -> Result<Option<&'a Equation>, OutOfMemory>
    ensures { IfOk result (λ found. MatchOption found
        (Rewrites here.now (clause_instance theta.now.terms here.now.ctx clause.now)
        term.now left → ⊥)
        (λ e. (rewrites : Rewrites here.now
        (clause_instance theta.now.terms here.now.ctx clause.now) term.now left)
        × (rewrites.equation ≡ equation_instance theta.now.terms e.now))) }
{
    let Some((equation, others)) = front(clause.conclusions.as_slice()) else {
        return Ok(None);
    };
    if !others.is_empty() || !is_instance(theta, side(equation, left), term) {
        return Ok(None);
    }
    if !instances_are_there(alloc, here, clause, theta)? {
        return Ok(None);
    }
    Ok(Some(equation))
}
