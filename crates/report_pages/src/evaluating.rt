//! The value and the cost of a side.

ghost use Rattle.std.specs.Prelude.{◌≡◌, [], IfOk, Some, map};
ghost use Rattle.term_core.specs.Tree.{Tree, instance};
ghost use Rattle.term_core.specs.declared.ids.SortId.{SortId};
ghost use Rattle.spec_core.specs.Sorts.{Sorted};
ghost use Rattle.acceptance.specs.Accepting.{names_in, values_in};
ghost use Rattle.report_pages.specs.Differences.{IsNarrow};
ghost use Rattle.report_pages.specs.Refutations.{SideIsEval};
ghost use Rattle.report_pages.specs.Settings.{IsReady};

use ground_eval::{Eval, eval};
use spec_core::Spec;
use std::alloc::Global;
use substitutions::Subst;
use term_core::{Name, OutOfMemory, Seq, Term};

/// Values of a goal's variables, with their names and as a substitution, and the steps within which
/// sides are evaluated.
#[derive(Drop)]
pub(crate) struct Setting<'a> {
    pub(crate) alloc: Global,
    pub(crate) spec: &'a Spec,
    pub(crate) values: &'a [(Name, Term)],
    pub(crate) names: &'a [Name],
    pub(crate) theta: &'a Subst,
    pub(crate) steps: u32,
}

/// The names of the values.
pub(crate) fn names_of(alloc: Global, values: &[(Name, Term)]) -> Result<Vec<Name>, OutOfMemory>
    ensures { IfOk result (λ names. names.items ≡ names_in values.now) }
{
    let mut names = Vec::with_capacity(alloc, values.len())?;
    for (name, _) in values {
        names.push(name.copy(alloc)?)?;
    }
    Ok(names)
}

/// The substitution of the values for the variables.
pub(crate) fn substitution_of(alloc: Global, values: &[(Name, Term)]) -> Result<Subst, OutOfMemory>
    ensures { IfOk result (λ theta.
        theta.terms ≡ map (λ (v : Tree). Some v) (values_in values.now)) }
{
    let mut terms = Vec::with_capacity(alloc, values.len())?;
    for (_, value) in values {
        terms.push(Some(value.copy(alloc)?))?;
    }
    Ok(Subst {
        terms: Seq::from_vec(terms),
    })
}

/// What the side gives under the values.
pub(crate) fn side_value(at: &Setting<'_>, side: &Term) -> Result<Eval, OutOfMemory>
    requires ready { IsReady at.now }
    requires sorted { (s : SortId)
        × Sorted at.now.spec.now.sig [] (instance (values_in at.now.values.now) side.now) s }
    ensures found { IfOk result (SideIsEval at.now.spec.now at.now.steps at.now.values.now
        side.now) }
    ensures narrow { IfOk result IsNarrow }
{
    let instance = at.theta.apply(at.alloc, side)?;
    eval(at.alloc, at.spec, &instance, at.steps)
}
