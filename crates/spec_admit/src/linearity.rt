//! The first variable that is twice on a left side.

ghost use Rattle.std.specs.Prelude.{IfOk, MatchOption};
ghost use Rattle.spec_core.specs.WellSorted.{IsWellSorted};
ghost use Rattle.spec_core.specs.Linear.{LeftSidesAreLinear};
ghost use Rattle.spec_admit.specs.FirstFault.{IsRepeated};

use overlap_check::{Linear, linear};
use spec_core::Spec;
use std::alloc::Global;
use term_core::{Name, OutOfMemory};

/// The first rule with a variable that occurs twice on its left side, and the name of the least
/// such variable.
pub(crate) fn repeated_variable(
    alloc: Global,
    spec: &Spec,
) -> Result<Option<(u32, Name)>, OutOfMemory>
    requires { IsWellSorted spec.now }
    ensures { IfOk result (λ found. MatchOption found
        (LeftSidesAreLinear spec.now)
        (λ p. IsRepeated spec.now p.0 p.1)) }
{
    match linear(alloc, spec)? {
        Linear::Fine => Ok(None),
        Linear::Repeated { rule, var } => {
            let rules = spec.rules.as_slice();
            let vars = rules[rule as usize - 1].vars.as_slice();
            let name = vars[var.0 as usize].name.copy(alloc)?;
            Ok(Some((rule, name)))
        }
    }
}
