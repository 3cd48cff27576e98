//! Rows of patterns that are kept elsewhere.

ghost use Rattle.std.specs.Prelude.{◌≡◌, ◌↔◌, ◌<◌, IfOk, IsTrue, length};
ghost use Rattle.std.specs.List.{AllByRecursion};
ghost use Rattle.term_core.specs.References.{terms_of};
ghost use Rattle.coverage_check.specs.Opened.{BeginsWithVariable, rest_of};
ghost use Rattle.coverage_check.specs.Columns.{IsVariable, is_application, has_symbol_at, fronted};
ghost use Rattle.coverage_check.specs.Decisions.{BeginsOtherwise};

use std::alloc::Global;
use term_core::{OutOfMemory, SymId, Term, TermNode, TermRefs, front};

/// Whether the pattern at the column is there and no variable.
pub(crate) fn has_symbol_at(row: &TermRefs, column: usize) -> bool
    ensures { result ≡ has_symbol_at column row.now }
{
    match row.as_slice().get(column) {
        Some(pattern) => is_application(*pattern),
        None => false,
    }
}

/// Whether each pattern is a variable.
pub(crate) fn is_variables(row: &TermRefs) -> bool
    ensures { IsTrue result ↔ AllByRecursion IsVariable row.now }
{
    are_variables(row.as_slice())
}

fn are_variables(patterns: &[&Term]) -> bool
    ensures { IsTrue result ↔ AllByRecursion IsVariable (terms_of patterns.now) }
{
    for pattern in patterns {
        if is_application(*pattern) {
            return false;
        }
    }
    true
}

/// Whether the first pattern is a variable.
pub(crate) fn begins_with_variable(row: &TermRefs) -> bool
    ensures { IsTrue result ↔ BeginsWithVariable row.now }
{
    match front(row.as_slice()) {
        Some((pattern, _)) => !is_application(*pattern),
        None => false,
    }
}

/// Whether the first pattern is no application of the symbol.
pub(crate) fn begins_otherwise(row: &TermRefs, sym: SymId) -> bool
    ensures { IsTrue result ↔ BeginsOtherwise sym.0 row.now }
{
    match front(row.as_slice()) {
        Some((pattern, _)) => match &pattern.node {
            TermNode::Var(_) => true,
            TermNode::App(other, _) => other.0 != sym.0,
        },
        None => true,
    }
}

/// The patterns but the first.
pub(crate) fn rest<'a>(alloc: Global, row: &TermRefs<'a>) -> Result<TermRefs<'a>, OutOfMemory>
    ensures { IfOk result (λ made. made ≡ rest_of row.now) }
{
    let mut made = TermRefs::new(alloc);
    if let Some((_, others)) = front(row.as_slice()) {
        made.extend(others)?;
    }
    Ok(made)
}

/// The patterns with the one at the column before the others.
pub(crate) fn fronted<'a>(
    alloc: Global,
    row: &TermRefs<'a>,
    column: usize,
) -> Result<TermRefs<'a>, OutOfMemory>
    requires { column < length row.now }
    ensures { IfOk result (λ made. made ≡ fronted column row.now) }
{
    fronted_terms(alloc, row.as_slice(), column)
}

fn fronted_terms<'a>(
    alloc: Global,
    patterns: &[&'a Term],
    column: usize,
) -> Result<TermRefs<'a>, OutOfMemory>
    requires { column < length patterns.now }
    ensures { IfOk result (λ made. made ≡ fronted column (terms_of patterns.now)) }
{
    let mut made = TermRefs::with_capacity(alloc, patterns.len())?;
    let first = patterns[column];
    made.push(first)?;
    made.extend(&patterns[..column])?;
    made.extend(&patterns[column + 1..])?;
    Ok(made)
}

/// Whether the term is no variable.
fn is_application(term: &Term) -> bool
    ensures { result ≡ is_application term.now }
{
    match &term.node {
        TermNode::Var(_) => false,
        TermNode::App(_, _) => true,
    }
}
