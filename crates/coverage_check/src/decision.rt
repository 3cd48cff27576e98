//! Whether values are missing, by the column at which most rows have a symbol.

ghost use Rattle.std.specs.Prelude.{◌<◌, ℕ, IfOk, MatchOption};
ghost use Rattle.std.specs.List.{AllByRecursion};
ghost use Rattle.coverage_check.specs.Columns.{symbols_at};
ghost use Rattle.coverage_check.specs.Decisions.{IsMatrix, NoneMissing, IsDecision};
ghost use Rattle.coverage_check.specs.Decisions.{IsDecisionUnder, IsFirstMissing, BeginsOtherwise};
ghost use Rattle.coverage_check.specs.Decisions.{IsOf, FirstIsOf};

use crate::columns::{begin_otherwise, busiest, fronted_rows, fronted_sorts, some_is_variables};
use crate::openings::{joined, open_rows};
use spec_core::Signature;
use std::alloc::Global;
use term_core::{OutOfMemory, SortId, SymId, Term, TermRefs, front};

/// Whether some values of the sorts match no row. `any` is a variable.
///
/// It splits the column at which most rows have a symbol (Maranget, "Warnings for pattern
/// matching", 2007, where the column is free). Whether patterns cover all values is a coNP-hard
/// question, so some rows that overlap take exponential time.
#[cycle(decide)]
pub(crate) fn is_missing<'a>(
    alloc: Global,
    sig: &Signature,
    rows: &[TermRefs<'a>],
    sorts: &[SortId],
    any: &'a Term,
) -> Result<bool, OutOfMemory>
    requires { IsMatrix sig.now rows.now sorts.now any.now }
    ensures { IfOk result (IsDecision sig.now rows.now sorts.now) }
{
    match busiest(rows, sorts.len()) {
        None => Ok(rows.is_empty()),
        Some(column) => {
            if some_is_variables(rows) {
                return Ok(false);
            }
            let moved = fronted_rows(alloc, rows, column)?;
            let moved_sorts = fronted_sorts(alloc, sorts, column)?;
            is_missing_by_first(alloc, sig, &moved, &moved_sorts, any)
        }
    }
}

/// The same, split at the first column, where some row begins with a symbol. A constructor with
/// which no row begins decides alone: what its values leave missing, all values leave.
#[cycle(decide)]
fn is_missing_by_first<'a>(
    alloc: Global,
    sig: &Signature,
    rows: &[TermRefs<'a>],
    sorts: &[SortId],
    any: &'a Term,
) -> Result<bool, OutOfMemory>
    requires matrix { IsMatrix sig.now rows.now sorts.now any.now }
    requires decides { 0 < symbols_at 0 rows.now }
    ensures { IfOk result (IsDecision sig.now rows.now sorts.now) }
{
    match front(sorts) {
        None => unreachable!(),
        Some((sort, _)) => {
            if let Some(sym) = unused(sig, rows, *sort) {
                return is_missing_under(alloc, sig, sym, rows, sorts, any);
            }
            let found = first_missing(alloc, sig, rows, sorts, any)?;
            Ok(found.is_some())
        }
    }
}

/// The first constructor of the first sort such that some values that begin with it match no row.
#[cycle(decide)]
pub(crate) fn first_missing<'a>(
    alloc: Global,
    sig: &Signature,
    rows: &[TermRefs<'a>],
    sorts: &[SortId],
    any: &'a Term,
) -> Result<Option<SymId>, OutOfMemory>
    requires matrix { IsMatrix sig.now rows.now sorts.now any.now }
    requires decides { 0 < symbols_at 0 rows.now }
    ensures { IfOk result (λ found. MatchOption found
        (NoneMissing sig.now rows.now sorts.now)
        (λ sym. IsFirstMissing sig.now rows.now sorts.now sym.0)) }
{
    match front(sorts) {
        None => unreachable!(),
        Some((sort, _)) => {
            for number in 0..sig.constructors() {
                let sym = SymId(number);
                if sig.info(sym).result.0 == sort.0
                    && is_missing_under(alloc, sig, sym, rows, sorts, any)?
                {
                    return Ok(Some(sym));
                }
            }
            Ok(None)
        }
    }
}

/// Whether some values that begin with the constructor match no row.
#[cycle(decide)]
fn is_missing_under<'a>(
    alloc: Global,
    sig: &Signature,
    sym: SymId,
    rows: &[TermRefs<'a>],
    sorts: &[SortId],
    any: &'a Term,
) -> Result<bool, OutOfMemory>
    requires matrix { IsMatrix sig.now rows.now sorts.now any.now }
    requires decides { 0 < symbols_at 0 rows.now }
    requires of_first { FirstIsOf sig.now sorts.now sym.0 }
    ensures { IfOk result (IsDecisionUnder sig.now sym.0 rows.now sorts.now) }
{
    match front(sorts) {
        None => unreachable!(),
        Some((_, others)) => {
            let args = sig.info(sym).args.as_slice();
            let opened = open_rows(alloc, rows, sym, args.len(), any)?;
            let opened_sorts = joined(alloc, args, others)?;
            is_missing(alloc, sig, &opened, &opened_sorts, any)
        }
    }
}

/// The first constructor of the sort with which no row begins.
fn unused(sig: &Signature, rows: &[TermRefs], sort: SortId) -> Option<SymId>
    ensures { MatchOption result
        ((c : ℕ) → IsOf sig.now sort c → AllByRecursion (BeginsOtherwise c) rows.now → ⊥)
        (λ sym. IsOf sig.now sort sym.0 × AllByRecursion (BeginsOtherwise sym.0) rows.now) }
{
    for number in 0..sig.constructors() {
        let sym = SymId(number);
        if sig.info(sym).result.0 == sort.0 && begin_otherwise(rows, sym) {
            return Some(sym);
        }
    }
    None
}
