//! Which missing values are named, by the columns in order.

ghost use Rattle.std.specs.Prelude.{◌≡◌, ◌∷◌, ◌++◌, ◌≤◌, IfOk, length, take, drop};
ghost use Rattle.std.specs.List.{AllByRecursion};
ghost use Rattle.term_core.specs.Tree.{app as application, trees_of};
ghost use Rattle.spec_core.specs.Sig.{IsSort};
ghost use Rattle.spec_core.specs.Small.{AreSmall};
ghost use Rattle.coverage_check.specs.Opened.{BeginsWithVariable};
ghost use Rattle.coverage_check.specs.Named.{IsNamed};
ghost use Rattle.coverage_check.specs.Decisions.{IsMatrix, SomeMissing};

use crate::columns::{begin_with_variables, rests};
use crate::decision::first_missing;
use crate::openings::{joined, open_rows};
use spec_core::Signature;
use std::alloc::Global;
use term_core::{OutOfMemory, SortId, SymId, Term, TermRefs, Terms, front};

/// The values that are named for the rows, if some are missing. `any` is a variable.
#[cycle(name)]
pub(crate) fn name<'a>(
    alloc: Global,
    sig: &Signature,
    rows: &[TermRefs<'a>],
    sorts: &[SortId],
    any: &'a Term,
) -> Result<Terms, OutOfMemory>
    requires matrix { IsMatrix sig.now rows.now sorts.now any.now }
    requires missing { SomeMissing sig.now rows.now sorts.now }
    ensures { IfOk result (IsNamed sig.now rows.now sorts.now) }
{
    if rows.is_empty() {
        return smalls(alloc, sig, sorts);
    }
    match front(sorts) {
        None => unreachable!(),
        Some((sort, others)) => {
            if !begin_with_variables(rows) {
                return name_under_first(alloc, sig, rows, sorts, any);
            }
            let value = sig.small(alloc, *sort)?;
            let rests = rests(alloc, rows)?;
            let rest = name(alloc, sig, &rests, others, any)?;
            before(alloc, value, rest)
        }
    }
}

/// The values that are named under the first constructor of the first sort under which some are
/// missing.
#[cycle(name)]
fn name_under_first<'a>(
    alloc: Global,
    sig: &Signature,
    rows: &[TermRefs<'a>],
    sorts: &[SortId],
    any: &'a Term,
) -> Result<Terms, OutOfMemory>
    requires matrix { IsMatrix sig.now rows.now sorts.now any.now }
    requires missing { SomeMissing sig.now rows.now sorts.now }
    requires decides { AllByRecursion BeginsWithVariable rows.now → ⊥ }
    ensures { IfOk result (IsNamed sig.now rows.now sorts.now) }
{
    match front(sorts) {
        None => unreachable!(),
        Some((_, others)) => match first_missing(alloc, sig, rows, sorts, any)? {
            None => unreachable!(),
            Some(sym) => {
                let args = sig.info(sym).args.as_slice();
                let opened = open_rows(alloc, rows, sym, args.len(), any)?;
                let opened_sorts = joined(alloc, args, others)?;
                let values = name(alloc, sig, &opened, &opened_sorts, any)?;
                closed(alloc, sym, args.len(), values)
            }
        },
    }
}

/// The small values of the sorts.
fn smalls(alloc: Global, sig: &Signature, sorts: &[SortId]) -> Result<Terms, OutOfMemory>
    requires { AllByRecursion (IsSort sig.now) sorts.now }
    ensures { IfOk result (λ made. AreSmall sig.now sorts.now (trees_of made)) }
{
    let mut made = Terms::with_capacity(alloc, sorts.len())?;
    for sort in sorts {
        made.push(sig.small(alloc, *sort)?)?;
    }
    Ok(made)
}

/// The term before the others.
fn before(alloc: Global, first: Term, others: Terms) -> Result<Terms, OutOfMemory>
    ensures { IfOk result (λ made. made ≡ first ∷ others) }
{
    let mut items = others.into_vec()?;
    items.insert(0, first)?;
    Terms::from_vec(alloc, items)
}

/// The symbol applied to the first `count` of the terms, before the rest.
fn closed(alloc: Global, sym: SymId, count: usize, terms: Terms) -> Result<Terms, OutOfMemory>
    requires { count ≤ length terms }
    ensures { IfOk result (λ made.
        made ≡ application sym.0 (trees_of (take count terms)) ∷ drop count terms) }
{
    let mut items = terms.into_vec()?;
    let rest = items.split_off(count)?;
    let first = Term::app(sym, Terms::from_vec(alloc, items)?);
    before(alloc, first, Terms::from_vec(alloc, rest)?)
}
