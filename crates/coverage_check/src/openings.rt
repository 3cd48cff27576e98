//! Rows opened at a constructor.

ghost use Rattle.std.specs.Prelude.{◌≡◌, ◌++◌, IfOk, OnOk, replicate};
ghost use Rattle.term_core.specs.Tree.{var as variable};
ghost use Rattle.term_core.specs.References.{terms_of};
ghost use Rattle.coverage_check.specs.Opened.{opened};
ghost use Rattle.coverage_check.specs.Decisions.{IsOpening};

use std::alloc::Global;
use term_core::{OutOfMemory, SortId, SymId, Term, TermNode, TermRefs, front};

/// The rows opened at a constructor with `count` arguments: of a row that begins with it, the
/// arguments come first; of one that begins with a variable, as many variables; and a row that
/// begins with another constructor is left out. `any` stands for each of these variables.
pub(crate) fn open_rows<'a>(
    alloc: Global,
    rows: &[TermRefs<'a>],
    sym: SymId,
    count: usize,
    any: &'a Term,
) -> Result<Vec<TermRefs<'a>>, OutOfMemory>
    requires { any.now ≡ variable 0 }
    ensures { IfOk result (λ made. made.items ≡ opened sym.0 count rows.now) }
{
    let mut made = Vec::new(alloc);
    for row in rows {
        if let Some(row) = open_row(alloc, row.as_slice(), sym, count, any)? {
            made.push(row)?;
        }
    }
    Ok(made)
}

fn open_row<'a>(
    alloc: Global,
    patterns: &[&'a Term],
    sym: SymId,
    count: usize,
    any: &'a Term,
) -> Result<Option<TermRefs<'a>>, OutOfMemory>
    requires { any.now ≡ variable 0 }
    ensures { IfOk result (IsOpening sym.0 count (terms_of patterns.now)) }
{
    match front(patterns) {
        None => Ok(None),
        Some((first, others)) => {
            let first = *first;
            let mut made = TermRefs::new(alloc);
            match &first.node {
                TermNode::Var(_) => push_times(&mut made, any, count)?,
                TermNode::App(other, args) => {
                    if other.0 != sym.0 {
                        return Ok(None);
                    }
                    made.push_all(args.as_slice())?;
                }
            }
            made.extend(others)?;
            Ok(Some(made))
        }
    }
}

/// Adds the pattern this many times.
fn push_times<'a>(
    row: &mut TermRefs<'a>,
    pattern: &'a Term,
    count: usize,
) -> Result<(), OutOfMemory>
    ensures { OnOk result (row.new ≡ row.old ++ replicate count pattern.now) }
{
    for _ in 0..count {
        row.push(pattern)?;
    }
    Ok(())
}

/// The sorts of the first slice before those of the second.
pub(crate) fn joined(
    alloc: Global,
    firsts: &[SortId],
    others: &[SortId],
) -> Result<Vec<SortId>, OutOfMemory>
    ensures { IfOk result (λ made. made.items ≡ firsts.now ++ others.now) }
{
    let mut made = Vec::from_slice(alloc, firsts)?;
    made.extend_from_slice(others)?;
    Ok(made)
}
