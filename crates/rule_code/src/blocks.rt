//! The code of a right side or a test.

ghost use Rattle.std.specs.Prelude.{◌≡◌, ◌≤◌, ◌<◌, ◌+◌, ℕ, Some, IfOk, length, slice_get};
ghost use Rattle.term_core.specs.Variables.{Occurs};
ghost use Rattle.spec_core.specs.TermText.{SymbolsAreInRange};
ghost use Rattle.spec_core.specs.WellSorted.{RuleIsSorted};
ghost use Rattle.rule_code.specs.Compiled.{IsBody};
ghost use Rattle.rule_code.specs.Homes.{IsLeftSide};
ghost use Rattle.rule_code.specs.Blocks.{AddsCode, AddsBlock, IsTestOf, HaveBlocks};
ghost use Rattle.rule_code.specs.Lengths.{rule_length};

use crate::code::Code;
use crate::emitting::{emit, emit_all};
use crate::instructions::Kind;
use crate::left_sides::LeftSide;
use spec_core::{Rule, Signature};
use std::alloc::Global;
use term_core::{OutOfMemory, Term, TermNode};

/// Adds the code of a rule, a block for each guard and one for the right side, and gives the places
/// where the blocks begin. Each begins with the slots of the left side alone.
pub(crate) fn emit_blocks(
    alloc: Global,
    sig: &Signature,
    number: usize,
    rule: &Rule,
    left: &LeftSide,
    code: &mut Code,
) -> Result<Vec<usize>, OutOfMemory>
    requires sorted { RuleIsSorted sig.now rule.now }
    requires left { IsLeftSide rule.now left.now }
    ensures blocks { IfOk result (λ begins. HaveBlocks sig.now code.new number rule.now left.now
        begins.items) }
    ensures adds { IfOk result (λ _. AddsCode code.old code.new) }
    ensures few { IfOk result (λ _. length code.new ≤ length code.old + rule_length rule.now) }
{
    let guards = rule.guards.as_slice();
    let mut begins = Vec::with_capacity(alloc, guards.len().saturating_add(1))?;
    for (asked, guard) in guards.iter().enumerate() {
        begins.push(code.len())?;
        emit_test(alloc, sig, left, &guard.test, number, asked, code)?;
    }
    begins.push(code.len())?;
    emit_body(alloc, sig, &left.homes, &rule.right, left.width, code)?;
    Ok(begins)
}

/// Adds the code of a test, which is that of the rule with this number, after this many others.
fn emit_test(
    alloc: Global,
    sig: &Signature,
    left: &LeftSide,
    test: &Term,
    rule: usize,
    asked: usize,
    code: &mut Code,
) -> Result<(), OutOfMemory>
    requires symbols { SymbolsAreInRange sig.now test.now }
    requires variables { (n : ℕ) → Occurs n test.now → n < length left.now.homes.items }
    ensures { IfOk result (λ _. AddsBlock code.old code.new
        (IsTestOf sig.now left.now test.now rule asked)) }
{
    let (slot, _) = emit(alloc, sig, &left.homes, test, left.width, code)?;
    let kind = Kind::Decide { slot, rule, asked };
    code.push(kind, &left.homes)
}

/// Adds the code of a term, whose variables are in the slots `homes` of those below `next`.
pub fn emit_body(
    alloc: Global,
    sig: &Signature,
    homes: &[usize],
    term: &Term,
    next: usize,
    code: &mut Code,
) -> Result<(), OutOfMemory>
    requires symbols { SymbolsAreInRange sig.now term.now }
    requires variables { (n : ℕ) → Occurs n term.now → n < length homes.now }
    ensures { IfOk result (λ _. AddsBlock code.old code.new
        (IsBody sig.now homes.now term.now next)) }
{
    match &term.node {
        TermNode::App(sym, args) if !sig.is_constructor(*sym) => {
            let mut slots = Vec::with_capacity(alloc, args.len())?;
            emit_all(alloc, sig, homes, args.as_slice(), next, code, &mut slots)?;
            code.push(Kind::Last(sym.0), &slots)
        }
        _ => {
            let (slot, _) = emit(alloc, sig, homes, term, next, code)?;
            code.push(Kind::Give(slot), &[])
        }
    }
}
