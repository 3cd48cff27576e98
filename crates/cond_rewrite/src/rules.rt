//! A rule by its number, and its match at a place.

ghost use Rattle.std.specs.Prelude.{◌≡◌, MatchOption};
ghost use Rattle.clause_core.specs.RuleInstances.{RuleAt};

use spec_core::{Rule, Spec};

/// The rule with this number, which counts from 1.
pub(crate) fn rule_at(spec: &Spec, number: u32) -> Option<&Rule>
    ensures { MatchOption result (RuleAt spec.now number → ⊥)
        (λ rule. (at : RuleAt spec.now number) × (at.rule ≡ rule.now)) }
{
    let place = number.checked_sub(1)? as usize;
    spec.rules.as_slice().get(place)
}
