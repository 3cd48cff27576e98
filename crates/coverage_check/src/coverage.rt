//! `covers`: whether rows match all values.

ghost use Rattle.std.specs.Prelude.{◌≡◌, IfOk};
ghost use Rattle.std.specs.List.{AllByRecursion};
ghost use Rattle.term_core.specs.Tree.{var as variable};
ghost use Rattle.spec_core.specs.Sig.{IsSort};
ghost use Rattle.spec_core.specs.Declarations.{IsDeclared};
ghost use Rattle.coverage_check.specs.Rows.{IsRow};
ghost use Rattle.coverage_check.specs.Coverage.{IsCoverage};

use crate::answers::Coverage;
use crate::decision::is_missing;
use crate::naming::name;
use spec_core::Signature;
use std::alloc::Global;
use term_core::{OutOfMemory, SortId, Term, TermRefs, Terms, VarId};

/// Whether each list of values of the sorts matches some row, and if not, values that match none:
/// under the first constructors that leave some missing, and small ones where the rows don't
/// decide. No sorts and no row leave the empty list missing.
///
/// Whether patterns cover all values is a coNP-hard question, so some rows that overlap take
/// exponential time.
pub fn covers(
    alloc: Global,
    sig: &Signature,
    rows: &[Terms],
    sorts: &[SortId],
) -> Result<Coverage, OutOfMemory>
    requires sorts { AllByRecursion (IsSort sig.now) sorts.now }
    requires rows { AllByRecursion (IsRow sig.now sorts.now) rows.now }
    ensures { IfOk result (IsCoverage sig.now rows.now sorts.now) }
{
    sig.declared();
    covers_by(alloc, sig, rows, sorts, &Term::var(VarId(0)))
}

/// The same, where `any` is the variable that stands for each opened variable.
fn covers_by<'a>(
    alloc: Global,
    sig: &Signature,
    rows: &'a [Terms],
    sorts: &[SortId],
    any: &'a Term,
) -> Result<Coverage, OutOfMemory>
    requires declared { IsDeclared sig.now }
    requires any { any.now ≡ variable 0 }
    requires sorts { AllByRecursion (IsSort sig.now) sorts.now }
    requires rows { AllByRecursion (IsRow sig.now sorts.now) rows.now }
    ensures { IfOk result (IsCoverage sig.now rows.now sorts.now) }
{
    let patterns = patterns_of(alloc, rows)?;
    if is_missing(alloc, sig, &patterns, sorts, any)? {
        Ok(Coverage::Missing(name(alloc, sig, &patterns, sorts, any)?))
    } else {
        Ok(Coverage::Covered)
    }
}

fn patterns_of<'a>(alloc: Global, rows: &'a [Terms]) -> Result<Vec<TermRefs<'a>>, OutOfMemory>
    ensures { IfOk result (λ made. made.items ≡ rows.now) }
{
    let mut made = Vec::with_capacity(alloc, rows.len())?;
    for row in rows {
        made.push(TermRefs::of(alloc, row.as_slice())?)?;
    }
    Ok(made)
}
