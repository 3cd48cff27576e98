//! The step that splits the variable.

ghost use Rattle.std.specs.Prelude.{◌≡◌, ◌==◌, IfOk, position};
ghost use Rattle.term_core.specs.Tree.{app as application, some, none};
ghost use Rattle.term_core.specs.declared.ids.VarId.{VarId as VarIdOf};
ghost use Rattle.spec_core.specs.WellSorted.{IsWellSorted};
ghost use Rattle.plain_proof.specs.FirstPlain.{HasPlain};
ghost use Rattle.plain_search.specs.Blocks.{IsSplit};

use clause_core::Step;
use spec_core::{Goal, Spec};
use std::alloc::Global;
use term_core::{OutOfMemory, Seq, SymId, Term, Terms, VarId};
use test_sets::test_set;

/// The step that splits the goal's variable by the test set of its sort. It has the number by which
/// the goal's tidied clause has the variable.
pub(crate) fn split_on(
    alloc: Global,
    spec: &Spec,
    goal: &Goal,
    var: VarId,
) -> Result<Step, OutOfMemory>
    requires fine { IsWellSorted spec.now }
    requires plain { HasPlain spec.now goal.now 1000 var.0 }
    ensures { IfOk result (IsSplit spec.now goal.now var.0) }
{
    let equation = &goal.conclusions.as_slice()[0];
    let vars = pair(alloc, &equation.left, &equation.right)?.vars(alloc)?;
    let Some(number) = place_in(vars.as_slice(), var) else {
        unreachable!();
    };
    let sort = goal.vars.as_slice()[var.0 as usize].sort;
    let patterns = test_set(alloc, &spec.sig, sort)?;
    Ok(Step::Cover(VarId(number as u32), Seq::from_vec(patterns)))
}

/// Both terms as the arguments of one symbol.
fn pair(alloc: Global, left: &Term, right: &Term) -> Result<Term, OutOfMemory>
    ensures { IfOk result (λ made. made ≡ application 0 (some left.now (some right.now none))) }
{
    let mut args = Terms::with_capacity(alloc, 2)?;
    args.push(left.copy(alloc)?)?;
    args.push(right.copy(alloc)?)?;
    Ok(Term::app(SymId(0), args))
}

/// The variable's place among others.
fn place_in(vars: &[VarId], var: VarId) -> Option<usize>
    ensures { result ≡ position (λ (other : VarIdOf). other.0 == var.0) vars.now }
{
    vars.iter().position(|other| other.0 == var.0)
}
