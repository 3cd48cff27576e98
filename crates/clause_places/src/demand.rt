//! `asked`: the variable that the calls of a clause ask for.

ghost use Rattle.std.specs.Prelude.{◌≡◌, [], ◌∷◌, IfOk, option_map, option_to_list};
ghost use Rattle.term_core.specs.Tree.{app, trees_of};
ghost use Rattle.clause_core.specs.Clauses.{sides_of};
ghost use Rattle.clause_places.specs.Asked.{asked as asked_variables, asked_by};
ghost use Rattle.clause_places.specs.Demand.{IsFirst, asked_in, asked_among};

use crate::patterns::{left_sides, looked_at_in_terms};
use clause_core::Clause;
use spec_core::{Equation, Spec};
use std::alloc::Global;
use term_core::{OutOfMemory, SymId, Term, TermNode, VarId};

/// The first variable that the first place asks for, if some place asks. Once a variable is
/// found, no other place is looked at.
pub fn asked(alloc: Global, spec: &Spec, clause: &Clause) -> Result<Option<VarId>, OutOfMemory>
    ensures { IfOk result (λ found. asked_variables spec.now clause.now ≡
        option_to_list (option_map (λ v. v.0) found)) }
{
    if let Some(var) = asked_in_equations(alloc, spec, clause.premises.as_slice())? {
        return Ok(Some(var));
    }
    asked_in_equations(alloc, spec, clause.conclusions.as_slice())
}

fn asked_in_equations(
    alloc: Global,
    spec: &Spec,
    equations: &[Equation],
) -> Result<Option<VarId>, OutOfMemory>
    ensures { IfOk result (IsFirst (asked_among spec.now (sides_of equations.now))) }
{
    for equation in equations {
        if let Some(var) = asked_in_equation(alloc, spec, equation)? {
            return Ok(Some(var));
        }
    }
    Ok(None)
}

fn asked_in_equation(
    alloc: Global,
    spec: &Spec,
    equation: &Equation,
) -> Result<Option<VarId>, OutOfMemory>
    ensures { IfOk result (IsFirst (asked_among spec.now (sides_of (equation.now ∷ [])))) }
{
    if let Some(var) = asked_in_term(alloc, spec, &equation.left)? {
        return Ok(Some(var));
    }
    asked_in_term(alloc, spec, &equation.right)
}

#[cycle(asked)]
fn asked_in_term(alloc: Global, spec: &Spec, term: &Term) -> Result<Option<VarId>, OutOfMemory>
    ensures { IfOk result (IsFirst (asked_in spec.now term.now)) }
{
    let TermNode::App(sym, args) = &term.node else {
        return Ok(None);
    };
    if let Some(var) = asked_in_terms(alloc, spec, args.as_slice())? {
        return Ok(Some(var));
    }
    asked_by_call(alloc, spec, *sym, args.as_slice())
}

#[cycle(asked)]
fn asked_in_terms(alloc: Global, spec: &Spec, terms: &[Term]) -> Result<Option<VarId>, OutOfMemory>
    ensures { IfOk result (IsFirst (asked_among spec.now terms.now)) }
{
    for term in terms {
        if let Some(var) = asked_in_term(alloc, spec, term)? {
            return Ok(Some(var));
        }
    }
    Ok(None)
}

/// What a call of this symbol with these arguments asks for itself.
fn asked_by_call(
    alloc: Global,
    spec: &Spec,
    sym: SymId,
    args: &[Term],
) -> Result<Option<VarId>, OutOfMemory>
    ensures { IfOk result (IsFirst (asked_by spec.now (app sym.0 (trees_of args.now)))) }
{
    let patterns = left_sides(alloc, spec.rules.as_slice(), sym)?;
    looked_at_in_terms(alloc, &spec.sig, &patterns, args)
}
