//! The first function that isn't covered.

ghost use Rattle.std.specs.Prelude.{◌≡◌, ◌<◌, IfOk, MatchOption, Some, length};
ghost use Rattle.spec_core.specs.Covering.{IsCovering};
ghost use Rattle.spec_core.specs.Linear.{LeftSidesAreLinear};
ghost use Rattle.spec_core.specs.WellSorted.{IsWellSorted};
ghost use Rattle.spec_admit.specs.Tests.{FunctionIsCovered};
ghost use Rattle.spec_admit.specs.FirstFault.{IsUncovered};
ghost use Rattle.spec_admit.specs.Parts.{AreNamedFor};

use coverage_check::{Coverage, covers, rows_of};
use spec_core::Spec;
use std::alloc::Global;
use term_core::{OutOfMemory, SymId, Terms};

/// The first function that isn't covered by its left sides, and the values that are named for it.
pub(crate) fn uncovered_function(
    alloc: Global,
    spec: &Spec,
) -> Result<Option<(SymId, Terms)>, OutOfMemory>
    requires fine { IsWellSorted spec.now }
    requires linear { LeftSidesAreLinear spec.now }
    ensures { IfOk result (λ found. MatchOption found
        (IsCovering spec.now)
        (λ p. IsUncovered spec.now p.0.0 p.1)) }
{
    for number in spec.sig.constructors()..spec.sig.symbols() {
        let fun = SymId(number);
        if let Some(values) = missing_values(alloc, spec, fun)? {
            return Ok(Some((fun, values)));
        }
    }
    Ok(None)
}

/// The values that are named for the function, if some match no left side of it.
fn missing_values(alloc: Global, spec: &Spec, fun: SymId) -> Result<Option<Terms>, OutOfMemory>
    requires fine { IsWellSorted spec.now }
    requires linear { LeftSidesAreLinear spec.now }
    requires known { fun.0 < length spec.now.sig.table }
    ensures { IfOk result (λ found. MatchOption found
        (FunctionIsCovered spec.now fun.0)
        (AreNamedFor spec.now fun.0)) }
{
    let rows = rows_of(alloc, spec, fun)?;
    let sorts = spec.sig.info(fun).args.as_slice();
    match covers(alloc, &spec.sig, &rows, sorts)? {
        Coverage::Covered => Ok(None),
        Coverage::Missing(values) => Ok(Some(values)),
    }
}
