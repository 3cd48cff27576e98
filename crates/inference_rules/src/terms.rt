//! Lists of terms for the variables of a clause.

ghost use Rattle.std.specs.Prelude.{◌≡◌, ◌↔◌, Some, IfOk, IsTrue, map};
ghost use Rattle.term_core.specs.Tree.{Tree, trees_of};
ghost use Rattle.spec_core.specs.Sorts.{Sorted, SortedAll};

use spec_core::Signature;
use std::alloc::Global;
use substitutions::Subst;
use term_core::{OutOfMemory, Seq, SortId, Term};

/// Whether the terms have these sorts, one each.
pub(crate) fn have_sorts(sig: &Signature, ctx: &[SortId], terms: &[Term], sorts: &[SortId]) -> bool
    ensures { IsTrue result ↔ SortedAll sig.now ctx.now (trees_of terms.now) sorts.now }
{
    if terms.len() != sorts.len() {
        return false;
    }
    for (place, term) in terms.iter().enumerate() {
        if !has_sort(sig, ctx, term, sorts[place]) {
            return false;
        }
    }
    true
}

/// Whether the term has the sort.
fn has_sort(sig: &Signature, ctx: &[SortId], term: &Term, sort: SortId) -> bool
    ensures { IsTrue result ↔ Sorted sig.now ctx.now term.now sort }
{
    match sig.sort_of(ctx, term) {
        Some(found) => found.0 == sort.0,
        None => false,
    }
}

/// The substitution of the terms for the first variables, in their order.
pub(crate) fn entries_of(alloc: Global, terms: &[Term]) -> Result<Subst, OutOfMemory>
    ensures { IfOk result (λ made. made.terms ≡ map (λ (t : Tree). Some t) terms.now) }
{
    let mut made = Vec::with_capacity(alloc, terms.len())?;
    for term in terms {
        made.push(Some(term.copy(alloc)?))?;
    }
    Ok(Subst {
        terms: Seq::from_vec(made),
    })
}
