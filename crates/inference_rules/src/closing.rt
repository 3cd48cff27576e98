//! The steps `trivial`, `match` and `absurd`; whether two terms clash.

ghost use Rattle.std.specs.Prelude.{◌↔◌, IsTrue};
ghost use Rattle.term_core.specs.Tree.{trees_of};
ghost use Rattle.spec_core.specs.declared.records.Spec.{Spec as SpecOf};
ghost use Rattle.spec_core.specs.Sig.{IsConstructor};
ghost use Rattle.clause_core.specs.Clashes.{Clash, StandsUnder, StandsUnderAny};
ghost use Rattle.clause_core.specs.Closing.{trivial_row, match_row, absurd_row};
ghost use Rattle.inference_rules.specs.Answers.{AnsweredAlone};

use crate::making::closed;
use crate::nodes::StepError;
use clause_core::{Children, Clause, Why, is_either, is_identity};
use spec_core::{Signature, Spec};
use std::alloc::Global;
use term_core::{SymId, Term, TermNode, VarId};

/// `trivial`: the sides of the conclusion are one term.
pub(crate) fn trivial(alloc: Global, clause: &Clause, number: u16) -> Result<Children, StepError>
    ensures { (spec : SpecOf) →
        AnsweredAlone clause.now (trivial_row spec clause.now number) result }
{
    let Some(conclusion) = clause.equation(true, number) else {
        return Err(StepError::Why(Why::NoSuchPlace));
    };
    if !is_identity(conclusion) {
        return Err(StepError::Why(Why::DoesNotFit));
    }
    Ok(closed(alloc))
}

/// `match`: the conclusion is the premise, as written or with its sides swapped.
pub(crate) fn match_premise(
    alloc: Global,
    clause: &Clause,
    conclusion: u16,
    premise: u16,
) -> Result<Children, StepError>
    ensures { (spec : SpecOf) →
        AnsweredAlone clause.now (match_row spec clause.now conclusion premise) result }
{
    let Some(wanted) = clause.equation(true, conclusion) else {
        return Err(StepError::Why(Why::NoSuchPlace));
    };
    let Some(given) = clause.equation(false, premise) else {
        return Err(StepError::Why(Why::NoSuchPlace));
    };
    if !is_either(wanted, given) {
        return Err(StepError::Why(Why::DoesNotFit));
    }
    Ok(closed(alloc))
}

/// `absurd`: the sides of the premise clash.
pub(crate) fn absurd_premise(
    alloc: Global,
    spec: &Spec,
    clause: &Clause,
    number: u16,
) -> Result<Children, StepError>
    ensures { AnsweredAlone clause.now (absurd_row spec.now clause.now number) result }
{
    let Some(premise) = clause.equation(false, number) else {
        return Err(StepError::Why(Why::NoSuchPlace));
    };
    if !clashes(&spec.sig, &premise.left, &premise.right) {
        return Err(StepError::Why(Why::DoesNotFit));
    }
    Ok(closed(alloc))
}

/// Whether no instance by values gives both terms one value, as their constructors show: their
/// heads are distinct constructors, or one is a variable that is under constructors of the
/// other.
pub(crate) fn clashes(sig: &Signature, left: &Term, right: &Term) -> bool
    ensures { IsTrue result ↔ Clash sig.now left.now right.now }
{
    match (&left.node, &right.node) {
        (TermNode::App(f, _), TermNode::App(g, _)) => {
            f != g && is_constructor(sig, *f) && is_constructor(sig, *g)
        }
        (TermNode::Var(var), TermNode::App(_, _)) => stands_under(sig, *var, right),
        (TermNode::App(_, _), TermNode::Var(var)) => stands_under(sig, *var, left),
        (TermNode::Var(_), TermNode::Var(_)) => false,
    }
}

/// Whether the variable occurs in the term with only constructors on the way down to it.
#[cycle(under)]
fn stands_under(sig: &Signature, var: VarId, term: &Term) -> bool
    ensures { IsTrue result ↔ StandsUnder sig.now var.0 term.now }
{
    match &term.node {
        TermNode::Var(other) => var == *other,
        TermNode::App(sym, args) => {
            is_constructor(sig, *sym) && stands_under_any(sig, var, args.as_slice())
        }
    }
}

/// Whether the variable occurs so in some of the terms.
#[cycle(under)]
fn stands_under_any(sig: &Signature, var: VarId, terms: &[Term]) -> bool
    ensures { IsTrue result ↔ StandsUnderAny sig.now var.0 (trees_of terms.now) }
{
    for term in terms {
        if stands_under(sig, var, term) {
            return true;
        }
    }
    false
}

/// Whether the symbol is a constructor. It may be no symbol of the signature.
pub(crate) fn is_constructor(sig: &Signature, sym: SymId) -> bool
    ensures { IsTrue result ↔ IsConstructor sig.now sym.0 }
{
    sym.0 < sig.constructors()
}
