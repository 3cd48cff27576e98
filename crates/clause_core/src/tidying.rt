//! `tidy` and `of_goal`, in one pass over a table of old numbers.

ghost use Rattle.std.specs.Prelude.{◌≡◌, ◌==◌, IfOk, OnOk, map, position};
ghost use Rattle.term_core.specs.Tree.{trees_of};
ghost use Rattle.term_core.specs.Variables.{occurrences, occurrences_all};
ghost use Rattle.term_core.specs.Gathered.{met, gathered};
ghost use Rattle.spec_core.specs.WellSorted.{sorts_of as sorts_of_variables};
ghost use Rattle.clause_core.specs.Clauses.{sides_of};
ghost use Rattle.clause_core.specs.Tidied.{place_of, renumbered, renumbered_equation};
ghost use Rattle.clause_core.specs.Tidied.{sorts_at as sorts_at_places, tidied, goal_clause};

use crate::clauses::Clause;
use crate::equations::copy_equations;
use spec_core::{Equation, Goal, VarInfo};
use std::alloc::Global;
use std::mem;
use term_core::{OutOfMemory, Seq, SortId, Term, TermNode, VarId};

/// The clause with its variables numbered by first occurrence, premises before conclusions and
/// left sides before right ones. Variables that don't occur are left out. Terms
/// without variables are kept. The time is that of the occurrences times that of the variables.
pub fn tidy(alloc: Global, clause: Clause) -> Result<Clause, OutOfMemory>
    ensures { IfOk result (λ made. made ≡ tidied clause) }
{
    let Clause {
        ctx,
        premises,
        conclusions,
    } = clause;
    let mut olds = Vec::new(alloc);
    let premises = renumber_equations(alloc, premises, &mut olds)?;
    let conclusions = renumber_equations(alloc, conclusions, &mut olds)?;
    Ok(Clause {
        ctx: sorts_at(alloc, ctx.as_slice(), &olds)?,
        premises,
        conclusions,
    })
}

/// The goal's clause, tidied.
pub fn of_goal(alloc: Global, goal: &Goal) -> Result<Clause, OutOfMemory>
    ensures { IfOk result (λ made. made ≡ goal_clause goal.now) }
{
    let written = Clause {
        ctx: Seq::from_vec(sorts_of(alloc, goal.vars.as_slice())?),
        premises: Seq::from_vec(copy_equations(alloc, goal.premises.as_slice())?),
        conclusions: Seq::from_vec(copy_equations(alloc, goal.conclusions.as_slice())?),
    };
    tidy(alloc, written)
}

/// The sorts of the variables, in their order.
fn sorts_of(alloc: Global, vars: &[VarInfo]) -> Result<Vec<SortId>, OutOfMemory>
    ensures { IfOk result (λ sorts. sorts.items ≡ sorts_of_variables vars.now) }
{
    let mut sorts = Vec::with_capacity(alloc, vars.len())?;
    for var in vars {
        sorts.push(var.sort)?;
    }
    Ok(sorts)
}

/// The sorts that `ctx` has at these places. A variable of a sorted clause has one.
fn sorts_at(alloc: Global, ctx: &[SortId], places: &[u32]) -> Result<Seq<SortId>, OutOfMemory>
    ensures { IfOk result (λ sorts. sorts ≡ sorts_at_places ctx.now places.now) }
{
    let mut sorts = Vec::with_capacity(alloc, places.len())?;
    for place in places {
        let sort = match ctx.get(*place as usize) {
            Some(sort) => *sort,
            None => SortId(0),
        };
        sorts.push(sort)?;
    }
    Ok(Seq::from_vec(sorts))
}

/// The equations in their order, renumbered: `olds` has at each new number the old one, and the
/// numbers that are met for the first time are added to it.
fn renumber_equations(
    alloc: Global,
    equations: Seq<Equation>,
    olds: &mut Vec<u32>,
) -> Result<Seq<Equation>, OutOfMemory>
    ensures olds { OnOk result (olds.new.items ≡
        gathered olds.old.items (occurrences_all (trees_of (sides_of equations)))) }
    ensures made { IfOk result (λ made.
        made ≡ map (renumbered_equation olds.new.items) equations) }
{
    let items = equations.into_vec();
    let mut made = Vec::with_capacity(alloc, items.len())?;
    for equation in items {
        let left = renumber(equation.left, olds)?;
        let right = renumber(equation.right, olds)?;
        made.push(Equation { left, right })?;
    }
    Ok(Seq::from_vec(made))
}

/// The term, renumbered.
#[cycle(renumber)]
fn renumber(term: Term, olds: &mut Vec<u32>) -> Result<Term, OutOfMemory>
    ensures olds { OnOk result (olds.new.items ≡ gathered olds.old.items (occurrences term)) }
    ensures made { IfOk result (λ made. made ≡ renumbered olds.new.items term) }
{
    if term.bound() == 0 {
        return Ok(term);
    }
    match term.node {
        TermNode::Var(var) => Ok(Term::var(new_number(var, olds)?)),
        TermNode::App(sym, mut args) => {
            let made = renumber_all(args.take_items()?, olds)?;
            args.put_items(made)?;
            Ok(Term::app(sym, args))
        }
    }
}

/// The terms in their order, renumbered.
#[cycle(renumber)]
fn renumber_all(terms: Vec<Term>, olds: &mut Vec<u32>) -> Result<Vec<Term>, OutOfMemory>
    ensures olds { OnOk result
        (olds.new.items ≡ gathered olds.old.items (occurrences_all (trees_of terms.items))) }
    ensures made { IfOk result (λ made.
        made.items ≡ map (renumbered olds.new.items) terms.items) }
{
    let mut terms = terms;
    for index in 0..terms.len() {
        let term = mem::replace(&mut terms[index], Term::var(VarId(0)));
        terms[index] = renumber(term, olds)?;
    }
    Ok(terms)
}

/// The variable's new number, which is its place among the old ones.
fn new_number(var: VarId, olds: &mut Vec<u32>) -> Result<VarId, OutOfMemory>
    ensures olds { OnOk result (olds.new.items ≡ met olds.old.items var.0) }
    ensures made { IfOk result (λ made. made.0 ≡ place_of olds.new.items var.0) }
{
    match place_in(olds, var) {
        Some(place) => numbered(place),
        None => {
            let made = numbered(olds.len())?;
            olds.push(var.0)?;
            Ok(made)
        }
    }
}

/// The variable's place among the old numbers.
fn place_in(olds: &[u32], var: VarId) -> Option<usize>
    ensures { result ≡ position (λ old. old == var.0) olds.now }
{
    olds.iter().position(|old| *old == var.0)
}

/// The variable with this number. A place past the last number counts as want of memory: there are
/// no more variables than numbers, so that none comes.
fn numbered(place: usize) -> Result<VarId, OutOfMemory>
    ensures { IfOk result (λ made. made.0 ≡ place) }
{
    if place > u32::MAX as usize {
        return Err(OutOfMemory);
    }
    Ok(VarId(place as u32))
}
