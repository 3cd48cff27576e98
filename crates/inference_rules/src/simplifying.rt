//! The steps `decompose`, `clash` and `drop`.

ghost use Rattle.std.specs.Prelude.{◌≡◌, ◌∷◌, [], true, IfOk, MatchOption, map};
ghost use Rattle.term_core.specs.Tree.{trees_of};
ghost use Rattle.spec_core.specs.declared.records.Equation.{Equation as EquationOf};
ghost use Rattle.spec_core.specs.declared.records.Spec.{Spec as SpecOf};
ghost use Rattle.clause_core.specs.declared.clauses.Relation.TheVariants.{Less};
ghost use Rattle.clause_core.specs.NumberedEquations.{EquationAt, equations, exchanged};
ghost use Rattle.clause_core.specs.Rows.{child, makes};
ghost use Rattle.clause_core.specs.Simplifying.{SameHeads, pairs, decompose_row, clash_row};
ghost use Rattle.clause_core.specs.Simplifying.{drop_row};
ghost use Rattle.inference_rules.specs.Answers.{AnsweredAlone};

use crate::closing::{clashes, is_constructor};
use crate::making::{related, related_alone};
use crate::nodes::StepError;
use clause_core::{Children, Clause, Relation, Why};
use spec_core::{Equation, Signature, Spec};
use std::alloc::Global;
use term_core::{OutOfMemory, Term, TermNode};

/// `decompose`: both sides have the same constructor as head, and the arguments are equated in
/// their place. Of a premise all these equations are there, of a conclusion each in its child.
pub(crate) fn decompose(
    alloc: Global,
    spec: &Spec,
    clause: &Clause,
    conclusion: bool,
    number: u16,
) -> Result<Children, StepError>
    ensures { AnsweredAlone clause.now (decompose_row spec.now clause.now conclusion number)
        result }
{
    let Some(equation) = clause.equation(conclusion, number) else {
        return Err(StepError::Why(Why::NoSuchPlace));
    };
    let Some((lefts, rights)) = arguments_of(&spec.sig, equation) else {
        return Err(StepError::Why(Why::DoesNotFit));
    };
    let parts = equated(alloc, lefts, rights)?;
    if conclusion {
        let children = one_each(alloc, clause, number, parts)?;
        related(alloc, Relation::Less, children)
    } else {
        let child = clause.exchanged(alloc, false, number, parts)?;
        related_alone(alloc, Relation::Less, child)
    }
}

/// `clash`: the sides of the conclusion clash, and it is left out.
pub(crate) fn clash(
    alloc: Global,
    spec: &Spec,
    clause: &Clause,
    number: u16,
) -> Result<Children, StepError>
    ensures { AnsweredAlone clause.now (clash_row spec.now clause.now number) result }
{
    let Some(conclusion) = clause.equation(true, number) else {
        return Err(StepError::Why(Why::NoSuchPlace));
    };
    if !clashes(&spec.sig, &conclusion.left, &conclusion.right) {
        return Err(StepError::Why(Why::DoesNotFit));
    }
    let child = clause.exchanged(alloc, true, number, Vec::new(alloc))?;
    related_alone(alloc, Relation::Less, child)
}

/// `drop`: the conclusion (true) or premise is left out.
pub(crate) fn drop_equation(
    alloc: Global,
    clause: &Clause,
    conclusion: bool,
    number: u16,
) -> Result<Children, StepError>
    ensures { (spec : SpecOf) →
        AnsweredAlone clause.now (drop_row spec clause.now conclusion number) result }
{
    let Some(_) = clause.equation(conclusion, number) else {
        return Err(StepError::Why(Why::NoSuchPlace));
    };
    let child = clause.exchanged(alloc, conclusion, number, Vec::new(alloc))?;
    related_alone(alloc, Relation::Less, child)
}

/// The arguments of both sides, if these have the same constructor as head.
fn arguments_of<'a>(sig: &Signature, equation: &'a Equation) -> Option<(&'a [Term], &'a [Term])>
    ensures { MatchOption result (SameHeads sig.now equation.now → ⊥)
        (λ args. (heads : SameHeads sig.now equation.now)
        × (heads.lefts ≡ trees_of args.0.now) × (heads.rights ≡ trees_of args.1.now)) }
{
    let (TermNode::App(f, lefts), TermNode::App(g, rights)) = (
        &equation.left.node,
        &equation.right.node,
    ) else {
        return None;
    };
    if f != g || !is_constructor(sig, *f) {
        return None;
    }
    Some((lefts.as_slice(), rights.as_slice()))
}

/// The equations of the terms in their places, as far as both lists go.
fn equated(alloc: Global, lefts: &[Term], rights: &[Term]) -> Result<Vec<Equation>, OutOfMemory>
    ensures { IfOk result (λ made. made.items ≡ pairs (trees_of lefts.now) (trees_of rights.now)) }
{
    let mut made = Vec::new(alloc);
    for (left, right) in lefts.iter().zip(rights) {
        made.push(Equation {
            left: left.copy(alloc)?,
            right: right.copy(alloc)?,
        })?;
    }
    Ok(made)
}

/// For each equation the clause that has it alone in the place of the conclusion with this number.
fn one_each(
    alloc: Global,
    clause: &Clause,
    number: u16,
    parts: Vec<Equation>,
) -> Result<Vec<Clause>, OutOfMemory>
    requires { EquationAt (equations true clause.now) number }
    ensures { IfOk result (λ made. (at : EquationAt (equations true clause.now) number) →
        made.items ≡ map (λ (e : EquationOf). exchanged true clause.now at (e ∷ [])) parts.items) }
{
    let mut made = Vec::with_capacity(alloc, parts.len())?;
    for part in parts {
        let mut alone = Vec::new(alloc);
        alone.push(part)?;
        made.push(clause.exchanged(alloc, true, number, alone)?)?;
    }
    Ok(made)
}
