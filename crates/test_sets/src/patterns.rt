//! The sorts of a pattern's variables, and patterns that cover.

ghost use Rattle.std.specs.Prelude.{◌≡◌, ◌≤◌, ◌-◌, ◌++◌, IfOk, List, MatchOption, OnOk, Some, map};
ghost use Rattle.std.specs.List.{AllZip};
ghost use Rattle.term_core.specs.Tree.{Tree, trees_of};
ghost use Rattle.term_core.specs.declared.ids.SortId.{SortId as Sort};
ghost use Rattle.spec_core.specs.Sig.{IsSort};
ghost use Rattle.clause_core.specs.Instances.{variables as variables_of};
ghost use Rattle.clause_core.specs.Patterns.{IsPatternOf, AreCovering};
ghost use Rattle.test_sets.specs.Covers.{IsUncovered, rows_of as rows_of_patterns};
ghost use Rattle.test_sets.specs.Children.{sorts_in, all_sorts_in};

use coverage_check::{Coverage, covers};
use spec_core::Signature;
use std::alloc::Global;
use substitutions::Subst;
use term_core::{OutOfMemory, Seq, SortId, Term, TermNode, Terms, VarId, front};

/// The value of the sort that is named as matching no pattern.
pub(crate) fn uncovered(
    alloc: Global,
    sig: &Signature,
    sort: SortId,
    patterns: &[Term],
) -> Result<Option<Term>, OutOfMemory>
    requires sort { IsSort sig.now sort }
    requires patterns { (contexts : List (List Sort)) ×
        AllZip (IsPatternOf sig.now sort) contexts patterns.now }
    ensures { IfOk result (λ found. MatchOption found
        (AreCovering sig.now sort patterns.now) (IsUncovered sig.now sort patterns.now)) }
{
    let rows = rows_of(alloc, patterns)?;
    match covers(alloc, sig, &rows, &[sort])? {
        Coverage::Covered => Ok(None),
        Coverage::Missing(values) => Ok(values.into_vec()?.pop()),
    }
}

/// Each pattern as a row of one column.
fn rows_of(alloc: Global, patterns: &[Term]) -> Result<Vec<Terms>, OutOfMemory>
    ensures { IfOk result (λ rows. rows.items ≡ rows_of_patterns patterns.now) }
{
    let mut rows = Vec::with_capacity(alloc, patterns.len())?;
    for pattern in patterns {
        let mut row = Terms::with_capacity(alloc, 1)?;
        row.push(pattern.copy(alloc)?)?;
        rows.push(row)?;
    }
    Ok(rows)
}

/// Adds the sorts of a term's variables, for each occurrence from the left the sort that its place
/// asks for. What comes past the arguments of a symbol is left out.
#[cycle(push_sorts)]
pub(crate) fn push_sorts(
    sig: &Signature,
    sort: SortId,
    pattern: &Term,
    sorts: &mut Vec<SortId>,
) -> Result<(), OutOfMemory>
    ensures { OnOk result
        (sorts.new.items ≡ sorts.old.items ++ sorts_in sig.now sort pattern.now) }
{
    match &pattern.node {
        TermNode::Var(_) => {
            sorts.push(sort)?;
            Ok(())
        }
        TermNode::App(sym, args) => {
            if sym.0 >= sig.symbols() {
                return Ok(());
            }
            let asked = sig.info(*sym).args.as_slice();
            push_all_sorts(sig, asked, args.as_slice(), sorts)
        }
    }
}

/// The same of patterns of these sorts.
#[cycle(push_sorts)]
fn push_all_sorts(
    sig: &Signature,
    asked: &[SortId],
    patterns: &[Term],
    sorts: &mut Vec<SortId>,
) -> Result<(), OutOfMemory>
    ensures { OnOk result (sorts.new.items ≡
        sorts.old.items ++ all_sorts_in sig.now asked.now (trees_of patterns.now)) }
{
    let first = front(patterns);
    let other = front(asked);
    match (first, other) {
        (Some((pattern, patterns)), Some((sort, asked))) => {
            push_sorts(sig, *sort, pattern, sorts)?;
            push_all_sorts(sig, asked, patterns, sorts)
        }
        _ => Ok(()),
    }
}

/// The variables with the numbers from `from` to below `end`, as entries. More variables than there
/// are numbers count as want of memory.
pub(crate) fn variables(alloc: Global, from: usize, end: usize) -> Result<Subst, OutOfMemory>
    requires { from ≤ end }
    ensures { IfOk result (λ made.
        made.terms ≡ map (λ (t : Tree). Some t) (variables_of from (end - from))) }
{
    if end > u32::MAX as usize {
        return Err(OutOfMemory);
    }
    let mut terms = Vec::with_capacity(alloc, end - from)?;
    for number in from..end {
        terms.push(Some(Term::var(VarId(number as u32))))?;
    }
    Ok(Subst {
        terms: Seq::from_vec(terms),
    })
}
