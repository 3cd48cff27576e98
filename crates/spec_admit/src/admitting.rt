//! `admit`: the specification as admitted, or its first fault.

ghost use Rattle.std.specs.Prelude.{◌≡◌, [], IfOk, IfErr, OnOk, MatchResult};
ghost use Rattle.term_core.specs.Tree.{Tree};
ghost use Rattle.term_core.specs.declared.ids.SortId.{SortId};
ghost use Rattle.spec_core.specs.RuleSizes.{RulesAreWithin};
ghost use Rattle.spec_core.specs.Sorts.{Sorted};
ghost use Rattle.spec_core.specs.WellSorted.{IsWellSorted};
ghost use Rattle.clause_core.specs.Admitted.{IsAdmitted};
ghost use Rattle.descent.specs.OneValue.{HasOneValue};
ghost use Rattle.spec_admit.specs.FirstFault.{Tells};

use crate::admitted::Admitted;
use crate::coverage::uncovered_function;
use crate::faults::{AdmitError, AdmitFault};
use crate::guards::incomplete_group;
use crate::linearity::repeated_variable;
use crate::ordering::unordered_rule;
use descent::values_rank_lower;
use overlap_check::{Overlap, overlap};
use spec_core::Spec;
use std::alloc::Global;
use term_core::Seq;
use term_order::TermOrder;

/// Admits a specification by this order, or gives it back unchanged with its first fault: of
/// linearity, order, overlap, guards and coverage in this order, and within one kind the first by
/// rule or function. On a refusal, want of memory too, the order is given up.
pub fn admit<O: TermOrder + Drop>(
    alloc: Global,
    spec: Spec,
    order: O,
) -> Result<Admitted<O>, AdmitError>
    requires sorted { IsWellSorted spec }
    requires small { RulesAreWithin 4294967295 spec }
    ensures same_spec { IfOk result (λ a. a.spec ≡ spec) }
    ensures same_order { IfOk result (λ a. a.order ≡ order) }
    ensures admitted { OnOk result (IsAdmitted (O.above order) spec) }
    ensures values { OnOk result ((t : Tree) (s : SortId) → Sorted spec.sig [] t s
        → HasOneValue (O.rank order) spec t s) }
    ensures returned { IfErr result (λ e. e.spec ≡ spec) }
    ensures refused { IfErr result (λ e. Tells (O.above order) spec e.fault) }
{
    values_rank_lower(&order);
    match check(alloc, &spec, &order) {
        Ok(()) => Ok(Admitted { spec, order }),
        Err(fault) => Err(AdmitError { spec, fault }),
    }
}

/// Looks for the first fault of the specification.
fn check<O: TermOrder>(alloc: Global, spec: &Spec, order: &O) -> Result<(), AdmitFault>
    requires sorted { IsWellSorted spec.now }
    requires small { RulesAreWithin 4294967295 spec.now }
    ensures { MatchResult result
        (λ _. IsAdmitted (O.above order.now) spec.now)
        (λ fault. Tells (O.above order.now) spec.now fault) }
{
    if let Some((rule, name)) = repeated_variable(alloc, spec)? {
        return Err(AdmitFault::Linear { rule, name });
    }
    if let Some((rule, part)) = unordered_rule(alloc, spec, order)? {
        return Err(AdmitFault::Order { rule, part });
    }
    if let Overlap::Both {
        first,
        second,
        values,
    } = overlap(alloc, spec)?
    {
        return Err(AdmitFault::Overlap {
            first,
            second,
            values,
        });
    }
    if let Some(rule) = incomplete_group(alloc, spec)? {
        return Err(AdmitFault::Guards { rule });
    }
    if let Some((fun, values)) = uncovered_function(alloc, spec)? {
        let values = Seq::from_vec(values.into_vec()?);
        return Err(AdmitFault::Coverage { fun, values });
    }
    Ok(())
}
