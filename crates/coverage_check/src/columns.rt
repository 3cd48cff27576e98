//! The columns of rows.

ghost use Rattle.std.specs.Prelude.{◌≡◌, ◌↔◌, ◌<◌, ◌++◌, List, IfOk, IsTrue, MatchOption, length};
ghost use Rattle.std.specs.Prelude.{map};
ghost use Rattle.std.specs.List.{AllByRecursion, Any};
ghost use Rattle.term_core.specs.Tree.{Tree};
ghost use Rattle.coverage_check.specs.Opened.{BeginsWithVariable, rests};
ghost use Rattle.coverage_check.specs.Columns.{IsVariable, IsBusiest, HasNoSymbols, symbols_at};
ghost use Rattle.coverage_check.specs.Columns.{fronted};
ghost use Rattle.coverage_check.specs.Decisions.{BeginsOtherwise};

use crate::rows::{
    begins_otherwise, begins_with_variable, fronted, has_symbol_at, is_variables, rest,
};
use std::alloc::Global;
use term_core::{OutOfMemory, SortId, SymId, TermRefs};

/// The first of the columns at which most rows have a symbol, if some row has one.
pub(crate) fn busiest(rows: &[TermRefs], columns: usize) -> Option<usize>
    ensures { MatchOption result (HasNoSymbols rows.now columns) (IsBusiest rows.now columns) }
{
    let mut found = None;
    let mut most = 0;
    for column in 0..columns {
        let count = symbols_at(rows, column);
        if count > most {
            most = count;
            found = Some(column);
        }
    }
    found
}

fn symbols_at(rows: &[TermRefs], column: usize) -> usize
    ensures { result ≡ symbols_at column rows.now }
{
    rows.iter().filter(|row| has_symbol_at(row, column)).count()
}

/// Whether some row has no symbol.
pub(crate) fn some_is_variables(rows: &[TermRefs]) -> bool
    ensures { IsTrue result ↔ Any (AllByRecursion IsVariable) rows.now }
{
    rows.iter().any(|row| is_variables(row))
}

/// Whether the first pattern of each row is a variable.
pub(crate) fn begin_with_variables(rows: &[TermRefs]) -> bool
    ensures { IsTrue result ↔ AllByRecursion BeginsWithVariable rows.now }
{
    rows.iter().all(|row| begins_with_variable(row))
}

/// Whether no row begins with the symbol.
pub(crate) fn begin_otherwise(rows: &[TermRefs], sym: SymId) -> bool
    ensures { IsTrue result ↔ AllByRecursion (BeginsOtherwise sym.0) rows.now }
{
    rows.iter().all(|row| begins_otherwise(row, sym))
}

/// The rows with the pattern at the column before the others.
pub(crate) fn fronted_rows<'a>(
    alloc: Global,
    rows: &[TermRefs<'a>],
    column: usize,
) -> Result<Vec<TermRefs<'a>>, OutOfMemory>
    requires { AllByRecursion (λ (row : List Tree). column < length row) rows.now }
    ensures { IfOk result (λ made. made.items ≡ map (fronted column) rows.now) }
{
    let mut made = Vec::with_capacity(alloc, rows.len())?;
    for row in rows {
        made.push(fronted(alloc, row, column)?)?;
    }
    Ok(made)
}

/// The sorts with the one at the column before the others.
pub(crate) fn fronted_sorts(
    alloc: Global,
    sorts: &[SortId],
    column: usize,
) -> Result<Vec<SortId>, OutOfMemory>
    requires { column < length sorts.now }
    ensures { IfOk result (λ made. made.items ≡ fronted column sorts.now) }
{
    let mut made = Vec::with_capacity(alloc, sorts.len())?;
    made.push(sorts[column])?;
    made.extend_from_slice(&sorts[..column])?;
    made.extend_from_slice(&sorts[column + 1..])?;
    Ok(made)
}

/// The rows without their first patterns.
pub(crate) fn rests<'a>(
    alloc: Global,
    rows: &[TermRefs<'a>],
) -> Result<Vec<TermRefs<'a>>, OutOfMemory>
    ensures { IfOk result (λ made. made.items ≡ rests rows.now) }
{
    let mut made = Vec::with_capacity(alloc, rows.len())?;
    for row in rows {
        made.push(rest(alloc, row)?)?;
    }
    Ok(made)
}
