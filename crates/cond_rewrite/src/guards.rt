//! The instances of guards, and whether they are among the premises.

ghost use Rattle.std.specs.Prelude.{◌≡◌, ◌↔◌, IsTrue};
ghost use Rattle.std.specs.List.{AllByRecursion};
ghost use Rattle.spec_core.specs.declared.records.Guard.{Guard as GuardRecord};
ghost use Rattle.substitutions.specs.Substitution.{apply};
ghost use Rattle.spec_core.specs.Gives.{boolean as boolean_tree};
ghost use Rattle.clause_core.specs.Equations.{Among};
ghost use Rattle.cond_rewrite.specs.Applied.{applied_guard};

use crate::instances::is_instance;
use spec_core::{Equation, Guard, boolean};
use std::alloc::Global;
use substitutions::Subst;
use term_core::Term;

/// Whether each guard's instance, equated to the constant that it wants, is among the premises.
pub(crate) fn guards_are_among(
    alloc: Global,
    theta: &Subst,
    guards: &[Guard],
    premises: &[Equation],
) -> bool
    ensures { IsTrue result ↔
        AllByRecursion (λ (g : GuardRecord). Among (applied_guard theta.now.terms g) premises.now)
        guards.now }
{
    guards
        .iter()
        .all(|guard| is_among(alloc, theta, guard, premises))
}

/// Whether the guard's instance, equated to the constant that it wants, is among the premises.
fn is_among(alloc: Global, theta: &Subst, guard: &Guard, premises: &[Equation]) -> bool
    ensures { IsTrue result ↔ Among (applied_guard theta.now.terms guard.now) premises.now }
{
    for premise in premises {
        if equates(alloc, theta, guard, &premise.left, &premise.right)
            || equates(alloc, theta, guard, &premise.right, &premise.left)
        {
            return true;
        }
    }
    false
}

/// Whether the one side is the instance of the guard's test and the other one the constant that it
/// wants.
fn equates(alloc: Global, theta: &Subst, guard: &Guard, test: &Term, constant: &Term) -> bool
    ensures { IsTrue result ↔
        ((test.now ≡ apply theta.now.terms guard.now.test)
        × (constant.now ≡ boolean_tree guard.now.wanted)) }
{
    constant.same(&boolean(alloc, guard.wanted)) && is_instance(theta, &guard.test, test)
}
