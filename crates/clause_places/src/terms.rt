//! The terms at the places of a clause, in one list, and how many are in each side.

ghost use Rattle.std.specs.Prelude.{◌≡◌, ◌++◌, [], IfOk, OnOk, map, length};
ghost use Rattle.std.specs.List.{flat_map};
ghost use Rattle.clause_core.specs.Clauses.{sides_of};
ghost use Rattle.clause_places.specs.Spots.{paths};
ghost use Rattle.clause_places.specs.Listed.{subterms};
ghost use Rattle.clause_places.specs.Counts.{counts_of};

use spec_core::Equation;
use std::alloc::Global;
use term_core::{OutOfMemory, Term, TermNode, TermRefs};

/// For how many terms there is room from the start: as many as fit a small allocation, and as a
/// clause of usual size has.
const ROOM: usize = 120;

/// How many places the sides of an equation have.
#[derive(Clone, Copy)]
pub(crate) struct Counts {
    pub(crate) left: usize,
    pub(crate) right: usize,
}

/// No terms yet, with room for those of a clause of usual size.
pub(crate) fn no_terms<'a>(alloc: Global) -> Result<TermRefs<'a>, OutOfMemory>
    ensures { IfOk result (λ made. made ≡ []) }
{
    TermRefs::with_capacity(alloc, ROOM)
}

/// Adds the terms at the places of the equations, in their order, and answers how many there are in
/// each side.
pub(crate) fn add_equations<'a>(
    alloc: Global,
    equations: &'a [Equation],
    made: &mut TermRefs<'a>,
) -> Result<Vec<Counts>, OutOfMemory>
    ensures terms { OnOk result
        (made.new ≡ made.old ++ flat_map subterms (sides_of equations.now)) }
    ensures counts { IfOk result (λ counts. counts.items ≡ map counts_of equations.now) }
{
    let mut counts = Vec::with_capacity(alloc, equations.len())?;
    for equation in equations {
        let left = add_side(&equation.left, made)?;
        let right = add_side(&equation.right, made)?;
        counts.push(Counts { left, right })?;
    }
    Ok(counts)
}

/// Adds those of the term, and answers how many they are.
fn add_side<'a>(term: &'a Term, made: &mut TermRefs<'a>) -> Result<usize, OutOfMemory>
    ensures terms { OnOk result (made.new ≡ made.old ++ subterms term.now) }
    ensures count { IfOk result (λ count. count ≡ length (paths term.now)) }
{
    let before = made.as_slice().len();
    add_term(term, made)?;
    Ok(made.as_slice().len() - before)
}

/// Adds the terms at the places of the term, those of its arguments before itself.
#[cycle(add)]
fn add_term<'a>(term: &'a Term, made: &mut TermRefs<'a>) -> Result<(), OutOfMemory>
    ensures { OnOk result (made.new ≡ made.old ++ subterms term.now) }
{
    match &term.node {
        TermNode::Var(_) => made.push(term),
        TermNode::App(_, args) => {
            add_arguments(args.as_slice(), made)?;
            made.push(term)
        }
    }
}

#[cycle(add)]
fn add_arguments<'a>(terms: &'a [Term], made: &mut TermRefs<'a>) -> Result<(), OutOfMemory>
    ensures { OnOk result (made.new ≡ made.old ++ flat_map subterms terms.now) }
{
    for term in terms {
        add_term(term, made)?;
    }
    Ok(())
}
