//! The code of a term.

ghost use Rattle.std.specs.Prelude.{◌≡◌, ◌<◌, ◌++◌, ℕ, IfOk, length};
ghost use Rattle.term_core.specs.Tree.{trees_of};
ghost use Rattle.term_core.specs.Variables.{Occurs, OccursAny};
ghost use Rattle.spec_core.specs.TermText.{SymbolsAreInRange, AllSymbolsAreInRange};
ghost use Rattle.rule_code.specs.Emitting.{IsEmitted, AreEmitted};

use crate::code::Code;
use crate::instructions::Kind;
use spec_core::Signature;
use std::alloc::Global;
use term_core::{OutOfMemory, Term, TermNode, front};

/// Adds the steps that put the term into a slot, where the slots below `next` are taken, and gives
/// that slot, and the number of slots that are taken then. Variables are in the slots `homes`.
#[cycle(emit)]
pub(crate) fn emit(
    alloc: Global,
    sig: &Signature,
    homes: &[usize],
    term: &Term,
    next: usize,
    code: &mut Code,
) -> Result<(usize, usize), OutOfMemory>
    requires symbols { SymbolsAreInRange sig.now term.now }
    requires variables { (n : ℕ) → Occurs n term.now → n < length homes.now }
    ensures { IfOk result (λ r. IsEmitted sig.now homes.now term.now next code.old code.new r.0
        r.1) }
{
    match &term.node {
        TermNode::Var(var) => Ok((homes[var.0 as usize], next)),
        TermNode::App(sym, args) => {
            let mut slots = Vec::with_capacity(alloc, args.len())?;
            let slot = emit_all(alloc, sig, homes, args.as_slice(), next, code, &mut slots)?;
            if slot == usize::MAX {
                return Err(OutOfMemory);
            }
            let kind = if sig.is_constructor(*sym) {
                Kind::Build(sym.0)
            } else {
                Kind::Call(sym.0)
            };
            code.push(kind, &slots)?;
            Ok((slot, slot + 1))
        }
    }
}

/// Adds the steps that put the terms into slots, in their order, and these slots.
#[cycle(emit)]
pub(crate) fn emit_all(
    alloc: Global,
    sig: &Signature,
    homes: &[usize],
    terms: &[Term],
    next: usize,
    code: &mut Code,
    slots: &mut Vec<usize>,
) -> Result<usize, OutOfMemory>
    requires symbols { AllSymbolsAreInRange sig.now (trees_of terms.now) }
    requires variables { (n : ℕ) → OccursAny n (trees_of terms.now) → n < length homes.now }
    ensures { IfOk result (λ end. AreEmitted sig.now homes.now (trees_of terms.now) next code.old
        code.new slots.old.items slots.new.items end) }
{
    match front(terms) {
        None => Ok(next),
        Some((term, rest)) => {
            let (slot, next) = emit(alloc, sig, homes, term, next, code)?;
            slots.push(slot)?;
            emit_all(alloc, sig, homes, rest, next, code, slots)
        }
    }
}
