//! `with_constants`: the specification with further constants.

ghost use Rattle.std.specs.Prelude.{IfOk};
ghost use Rattle.std.specs.List.{AllByRecursion};
ghost use Rattle.spec_core.specs.Sig.{IsSort};
ghost use Rattle.spec_core.specs.WellSorted.{IsWellSorted};
ghost use Rattle.open_evaluation.specs.Shifted.{IsExtended, IsNoBoolean};

use crate::rules::shift_rules;
use crate::signature::extended_signature;
use spec_core::{Spec, order_by_number};
use std::alloc::Global;
use term_core::{OutOfMemory, Seq, SortId};

/// The specification with a constant of each of these sorts after its constructors, ordered by
/// number, and without its goals. A constructor of `Bool` can't be declared, so none of the sorts
/// is `Bool`. More symbols than there are numbers are answered as want of memory.
pub fn with_constants(alloc: Global, spec: &Spec, sorts: &[SortId]) -> Result<Spec, OutOfMemory>
    requires fine { IsWellSorted spec.now }
    requires in_range { AllByRecursion (IsSort spec.now.sig) sorts.now }
    requires no_booleans { AllByRecursion IsNoBoolean sorts.now }
    ensures extended { IfOk result (λ made. IsExtended spec.now made sorts.now) }
    ensures fine { IfOk result (λ made. IsWellSorted made) }
{
    let room = u32::MAX - spec.sig.symbols();
    if sorts.len() > room as usize {
        return Err(OutOfMemory);
    }
    let constants = sorts.len() as u32;
    let sig = extended_signature(alloc, &spec.sig, sorts)?;
    let rules = shift_rules(
        alloc,
        spec.sig.constructors(),
        constants,
        spec.rules.as_slice(),
    )?;
    let order = order_by_number(alloc, &sig)?;
    Ok(Spec {
        sig,
        order,
        rules,
        goals: Seq::new(alloc),
    })
}
