//! The length of a plain proof on a variable.

ghost use Rattle.std.specs.Prelude.{◌≡◌, ◌↔◌, ◌≤◌, ◌<◌, ◌+◌, ◌^◌, ◌++◌, IfOk, IsTrue, Some};
ghost use Rattle.std.specs.Prelude.{length as length_of};
ghost use Rattle.spec_core.specs.declared.records.SymInfo.{SymInfo as Info};
ghost use Rattle.spec_core.specs.Sig.{info_of};
ghost use Rattle.spec_core.specs.WellSorted.{IsWellSorted};
ghost use Rattle.plain_proof.specs.Cases.{in_case};
ghost use Rattle.plain_proof.specs.CaseAnswers.{HasSort, IsCase, HasCases};

use crate::cases::case_of;
use crate::closing::close;
use crate::limits::are_within;
use crate::staying::normal_side;
use normalization::Rewriter;
use spec_core::{Equation, Spec};
use std::alloc::Global;
use term_core::{OutOfMemory, SortId, SymId, VarId};

/// An equation that is split on a variable: the sorts of its variables, and the specification whose
/// rules rewrite its cases.
#[derive(Drop)]
pub(crate) struct Split<'a> {
    pub(crate) spec: &'a Spec,
    pub(crate) rewriter: &'a Rewriter<'a>,
    pub(crate) ctx: &'a [SortId],
    pub(crate) equation: &'a Equation,
    pub(crate) var: VarId,
}

/// Whether the cases of the variable close, by lengths that sum up to at most `most`. It stops at
/// the first case that passes what is left.
pub(crate) fn has_cases(
    alloc: Global,
    split: &Split,
    sort: SortId,
    most: u32,
) -> Result<bool, OutOfMemory>
    requires fine { IsWellSorted split.now.spec.now }
    requires its { split.now.rewriter.now ≡ split.now.spec.now }
    requires few { length_of split.now.ctx.now ≤ 16 }
    requires sorted { HasSort split.now.spec.now split.now.ctx.now split.now.equation.now }
    requires short { most ≤ 1000 }
    ensures { IfOk result (λ has. IsTrue has ↔ HasCases split.now.spec.now split.now.ctx.now
        split.now.equation.now most sort split.now.var.0) }
{
    let constructors = split.spec.sig.constructors_of(alloc, sort)?;
    let mut left = most;
    for sym in constructors.as_slice() {
        match case_length(alloc, split, *sym, left)? {
            Some(length) => left -= length,
            None => return Ok(false),
        }
    }
    Ok(true)
}

/// The length of the variable's case with this constructor, if it closes by at most `budget`.
fn case_length(
    alloc: Global,
    split: &Split,
    sym: SymId,
    budget: u32,
) -> Result<Option<u32>, OutOfMemory>
    requires fine { IsWellSorted split.now.spec.now }
    requires its { split.now.rewriter.now ≡ split.now.spec.now }
    requires few { length_of split.now.ctx.now ≤ 16 }
    requires sorted { HasSort split.now.spec.now split.now.ctx.now split.now.equation.now }
    requires short { budget ≤ 1000 }
    requires known { sym.0 < length_of split.now.spec.now.sig.table }
    ensures { IfOk result (λ found. (i : Info) → info_of split.now.spec.now.sig sym.0 ≡ Some i →
        IsCase split.now.spec.now split.now.ctx.now split.now.equation.now split.now.var.0
        (sym.0, i.args) budget found) }
{
    let (spec, rewriter, ctx) = (split.spec, split.rewriter, split.ctx);
    let args = spec.sig.info(sym).args.as_slice();
    let Equation { left, right } = sides_in(alloc, ctx, split.equation, split.var, sym, args)?;
    if !are_within(alloc, &left, &right)? {
        return Ok(None);
    }
    let Some((left, uses)) = normal_side(alloc, spec, rewriter, &right, left, budget)? else {
        return Ok(None);
    };
    let Some((right, more)) = normal_side(alloc, spec, rewriter, &left, right, budget)? else {
        return Ok(None);
    };
    let length = uses + more + left.size(budget + 1) + right.size(budget + 1);
    if length > budget {
        return Ok(None);
    }
    let over = sorts_in(alloc, ctx, args)?;
    let closing = close(alloc, &spec.sig, ctx, split.equation, &over, &left, &right)?;
    if !closing.suffices(uses + more) {
        return Ok(None);
    }
    Ok(Some(length))
}

/// Both sides in the variable's case with this constructor, whose arguments have these sorts.
fn sides_in(
    alloc: Global,
    ctx: &[SortId],
    equation: &Equation,
    var: VarId,
    sym: SymId,
    args: &[SortId],
) -> Result<Equation, OutOfMemory>
    requires few { length_of ctx.now + length_of args.now < 2 ^ 32 }
    ensures left { IfOk result (λ sides.
        sides.left ≡ in_case ctx.now var.0 (sym.0, args.now) equation.now.left) }
    ensures right { IfOk result (λ sides.
        sides.right ≡ in_case ctx.now var.0 (sym.0, args.now) equation.now.right) }
{
    let theta = case_of(alloc, var, sym, ctx.len(), args.len())?;
    let left = theta.apply(alloc, &equation.left)?;
    let right = theta.apply(alloc, &equation.right)?;
    Ok(Equation { left, right })
}

/// The sorts of the variables in a case.
fn sorts_in(alloc: Global, ctx: &[SortId], args: &[SortId]) -> Result<Vec<SortId>, OutOfMemory>
    ensures { IfOk result (λ over. over.items ≡ ctx.now ++ args.now) }
{
    let mut over = Vec::new(alloc);
    over.extend_from_slice(ctx)?;
    over.extend_from_slice(args)?;
    Ok(over)
}
