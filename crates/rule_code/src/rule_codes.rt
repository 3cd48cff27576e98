//! The code of a rule.

ghost use Rattle.std.specs.Prelude.{◌≡◌, ◌≤◌, ◌<◌, ◌+◌, Some, IfOk, length, slice_get};
ghost use Rattle.spec_core.specs.declared.records.Rule.{Rule};
ghost use Rattle.spec_core.specs.WellSorted.{IsWellSorted};
ghost use Rattle.rule_code.specs.Blocks.{AddsCode};
ghost use Rattle.rule_code.specs.Lengths.{rule_length, rules_length};
ghost use Rattle.rule_code.specs.Programs.{AreRuleCodes};
ghost use Rattle.rule_code.specs.RuleCodes.{IsRuleCode};

use crate::blocks::emit_blocks;
use crate::code::Code;
use crate::following::{Branch, find_branches};
use crate::left_sides::LeftSide;
use spec_core::Spec;
use std::alloc::Global;
use term_core::OutOfMemory;

/// The code of a rule.
#[derive(Drop)]
pub struct RuleCode {
    pub left: LeftSide,
    /// At k, where the code begins that follows if the first k guards hold.
    pub begins: Vec<usize>,
    /// For each guard the rules that go on with the answers of its test.
    pub branches: Vec<Branch>,
}

impl RuleCode {
    /// Adds the code of the rule with this number.
    pub(crate) fn of(
        alloc: Global,
        spec: &Spec,
        number: usize,
        code: &mut Code,
    ) -> Result<RuleCode, OutOfMemory>
        requires fine { IsWellSorted spec.now }
        requires listed { number < length spec.now.rules }
        ensures code { IfOk result (λ made. (rule : Rule)
            → slice_get spec.now.rules number ≡ Some rule
            → IsRuleCode spec.now code.new number rule made) }
        ensures adds { IfOk result (λ _. AddsCode code.old code.new) }
        ensures few { IfOk result (λ _. (rule : Rule) → slice_get spec.now.rules number ≡ Some rule
            → length code.new ≤ length code.old + rule_length rule) }
    {
        let rules = spec.rules.as_slice();
        let rule = &rules[number];
        let left = LeftSide::of(alloc, &spec.sig, rule)?;
        let begins = emit_blocks(alloc, &spec.sig, number, rule, &left, code)?;
        let branches = find_branches(alloc, rules, rule)?;
        Ok(RuleCode {
            left,
            begins,
            branches,
        })
    }
}

/// Adds the code of each rule, one after the other.
pub fn compile_rules(
    alloc: Global,
    spec: &Spec,
    code: &mut Code,
) -> Result<Vec<RuleCode>, OutOfMemory>
    requires { IsWellSorted spec.now }
    ensures codes { IfOk result (λ made. AreRuleCodes spec.now code.new (length spec.now.rules)
        made.items) }
    ensures few { IfOk result (λ _. length code.new
        ≤ length code.old + rules_length spec.now.rules) }
{
    let count = spec.rules.len();
    let mut made = Vec::with_capacity(alloc, count)?;
    for number in 0..count {
        made.push(RuleCode::of(alloc, spec, number, code)?)?;
    }
    Ok(made)
}
