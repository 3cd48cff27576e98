//! The names of the variables of a goal's clause.

ghost use Rattle.std.specs.Prelude.{◌≡◌, ◌↔◌, ◌++◌, IfOk, IsTrue, OnOk, codes, map, slice_index_or};
ghost use Rattle.term_core.specs.Variables.{numbers_of};
ghost use Rattle.spec_core.specs.TermText.{variable_names};
ghost use Rattle.clause_core.specs.Clauses.{sides_of};
ghost use Rattle.node_names.specs.Names.{AreDifferent, AreNoSymbols, goal_names};

use crate::fresh::is_free;
use crate::stems::other_stem;
use spec_core::{Equation, Goal, Signature, VarInfo};
use std::alloc::Global;
use term_core::{Name, OutOfMemory, SymId, Term, Terms, VarId};

/// The goal's own names of the variables of its clause.
pub(crate) fn names_of_goal(alloc: Global, goal: &Goal) -> Result<Vec<Name>, OutOfMemory>
    ensures { IfOk result (λ made. made.items ≡ goal_names goal.now) }
{
    let mut sides = Vec::new(alloc);
    push_sides(alloc, goal.premises.as_slice(), &mut sides)?;
    push_sides(alloc, goal.conclusions.as_slice(), &mut sides)?;
    // The variables of one term that has all sides are those of the clause, in their order.
    let whole = Term::app(SymId(0), Terms::from_vec(alloc, sides)?);
    let variables = whole.vars(alloc)?;
    names_at(alloc, goal.vars.as_slice(), variables.as_slice())
}

/// Adds copies of the sides of the equations.
fn push_sides(
    alloc: Global,
    equations: &[Equation],
    sides: &mut Vec<Term>,
) -> Result<(), OutOfMemory>
    ensures { OnOk result (sides.new.items ≡ sides.old.items ++ sides_of equations.now) }
{
    for equation in equations {
        sides.push(equation.left.copy(alloc)?)?;
        sides.push(equation.right.copy(alloc)?)?;
    }
    Ok(())
}

/// The names of these variables.
fn names_at(alloc: Global, vars: &[VarInfo], numbers: &[VarId]) -> Result<Vec<Name>, OutOfMemory>
    ensures { IfOk result (λ made. made.items ≡ map
        (λ n. slice_index_or (variable_names vars.now) n (codes "v")) (numbers_of numbers.now)) }
{
    let mut made = Vec::with_capacity(alloc, numbers.len())?;
    for number in numbers {
        made.push(variable_name(alloc, vars, *number)?)?;
    }
    Ok(made)
}

/// The name of the variable.
fn variable_name(alloc: Global, vars: &[VarInfo], number: VarId) -> Result<Name, OutOfMemory>
    ensures { IfOk result (λ made.
        made ≡ slice_index_or (variable_names vars.now) number.0 (codes "v")) }
{
    match vars.get(number.0 as usize) {
        Some(var) => var.name.copy(alloc),
        None => Name::of(alloc, other_stem()),
    }
}

/// Whether the names are all different and none of them is a symbol's.
pub(crate) fn can_be_names(sig: &Signature, names: &[Name]) -> bool
    ensures { IsTrue result ↔ (AreDifferent names.now × AreNoSymbols sig.now names.now) }
{
    for (place, name) in names.iter().enumerate() {
        if !is_free(sig, &names[..place], name.as_bytes()) {
            return false;
        }
    }
    true
}
