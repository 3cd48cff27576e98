//! Whether two terms are the sides of a sorted instance of an equation.

ghost use Rattle.std.specs.Prelude.{◌≡◌, ◌↔◌, ◌≤◌, ℕ, IfOk, IsTrue, Some, slice_get, length};
ghost use Rattle.term_core.specs.Tree.{app as application, some, none};
ghost use Rattle.term_core.specs.declared.ids.SortId.{SortId};
ghost use Rattle.plain_proof.specs.Closings.{IsInstance};
ghost use Rattle.plain_proof.specs.Filling.{IsFilled};

use matching::matches;
use spec_core::{Equation, Signature};
use std::alloc::Global;
use substitutions::Subst;
use term_core::{OutOfMemory, SortId, SymId, Term, Terms, VarId};

/// Whether the terms, over the variables of these sorts, are the sides of an instance of the
/// equation, whose variables have the sorts of `ctx` and keep them.
pub(crate) fn is_instance(
    alloc: Global,
    sig: &Signature,
    ctx: &[SortId],
    equation: &Equation,
    over: &[SortId],
    a: &Term,
    b: &Term,
) -> Result<bool, OutOfMemory>
    requires few { length ctx.now ≤ 16 }
    requires extends { (n : ℕ) (s : SortId) → slice_get ctx.now n ≡ Some s →
        slice_get over.now n ≡ Some s }
    ensures { IfOk result (λ found.
        IsTrue found ↔ IsInstance sig.now ctx.now equation.now over.now a.now b.now) }
{
    let pattern = pair(alloc, &equation.left, &equation.right)?;
    let term = pair(alloc, a, b)?;
    match matches(alloc, &pattern, &term)? {
        None => Ok(false),
        Some(entries) => {
            let whole = filled(alloc, entries, ctx.len() as u32)?;
            let fits = whole.fits(sig, ctx, over);
            Ok(fits)
        }
    }
}

/// Both terms as the arguments of one symbol.
fn pair(alloc: Global, left: &Term, right: &Term) -> Result<Term, OutOfMemory>
    ensures { IfOk result (λ made. made ≡ application 0 (some left.now (some right.now none))) }
{
    let mut args = Terms::new(alloc);
    args.push(left.copy(alloc)?)?;
    args.push(right.copy(alloc)?)?;
    Ok(Term::app(SymId(0), args))
}

/// The substitution with each of the first variables that has no entry as its own entry.
fn filled(alloc: Global, entries: Subst, count: u32) -> Result<Subst, OutOfMemory>
    ensures { IfOk result (λ made. IsFilled entries.terms count made.terms) }
{
    let mut made = entries;
    for number in 0..count {
        if made.get(VarId(number)).is_none() {
            made.set(alloc, VarId(number), Term::var(VarId(number)))?;
        }
    }
    Ok(made)
}
