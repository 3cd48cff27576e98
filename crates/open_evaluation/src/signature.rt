//! The signature with the constants.

ghost use Rattle.std.specs.Prelude.{◌≡◌, ◌<◌, ◌+◌, ◌^◌, ℕ, IfOk, length};
ghost use Rattle.std.specs.List.{AllByRecursion};
ghost use Rattle.spec_core.specs.Sig.{IsSort};
ghost use Rattle.spec_core.specs.Declarations.{IsDeclared};
ghost use Rattle.open_evaluation.specs.Shifted.{IsNoBoolean};
ghost use Rattle.open_evaluation.specs.Marks.{marked_sig};

use crate::naming::{add_constants, copy_symbols, longest_name, sort_names};
use spec_core::{BuildError, Signature};
use std::alloc::Global;
use term_core::{OutOfMemory, SortId};

/// The signature with a constant of each of these sorts after its constructors.
pub(crate) fn extended_signature(
    alloc: Global,
    sig: &Signature,
    sorts: &[SortId],
) -> Result<Signature, OutOfMemory>
    requires declared { IsDeclared sig.now }
    requires in_range { AllByRecursion (IsSort sig.now) sorts.now }
    requires no_booleans { AllByRecursion IsNoBoolean sorts.now }
    requires few { length sig.now.table + length sorts.now < 2 ^ 32 }
    ensures made { IfOk result (λ made. (n : ℕ) × (made ≡ marked_sig n sig.now sorts.now)) }
    ensures declared { IfOk result (λ made. IsDeclared made) }
{
    let first = longest_name(sig) + 1;
    let names = sort_names(alloc, sig.sorts() - 1)?;
    let mut constructors = copy_symbols(alloc, sig, 2, sig.constructors())?;
    add_constants(alloc, &mut constructors, first, sorts)?;
    let functions = copy_symbols(alloc, sig, sig.constructors(), sig.symbols())?;
    match Signature::build(alloc, names, constructors, functions) {
        Ok(made) => Ok(made),
        Err(BuildError::OutOfMemory) => Err(OutOfMemory),
        Err(BuildError::Repeated) => unreachable!(),
        Err(BuildError::NoSmallValue { .. }) => unreachable!(),
    }
}
