//! How two normal forms close.

ghost use Rattle.std.specs.Prelude.{◌≡◌, ◌↔◌, ◌≤◌, ℕ, IfOk, IsTrue, MatchOption, Some, slice_get};
ghost use Rattle.std.specs.Prelude.{length};
ghost use Rattle.term_core.specs.Tree.{app as application, trees_of};
ghost use Rattle.term_core.specs.declared.ids.SortId.{SortId};
ghost use Rattle.spec_core.specs.Sig.{IsConstructor};
ghost use Rattle.plain_proof.specs.Closings.{HaveSameHead};
ghost use Rattle.plain_proof.specs.ClosingAnswers.{Suffices, IsClosing, AreClosing};

use crate::instances::is_instance;
use spec_core::{Equation, Signature};
use std::alloc::Global;
use term_core::{OutOfMemory, SortId, Term, TermNode, front};

/// How a pair of normal forms is closed.
#[derive(Clone, Copy)]
pub enum Closing {
    Open,
    /// By an instance of the equation, with nothing stripped.
    ByInstance,
    Closed,
}

impl Closing {
    /// Whether the pair is closed after this many uses of rules: one that is closed by an instance
    /// alone needs a use.
    pub(crate) fn suffices(self, uses: u32) -> bool
        ensures { IsTrue result ↔ Suffices self uses }
    {
        match self {
            Closing::Open => false,
            Closing::ByInstance => uses > 0,
            Closing::Closed => true,
        }
    }
}

/// How the pair of normal forms over the variables of `over` is closed: it is identical, or equal
/// constructors are stripped, or it is an instance of the equation as written or swapped.
#[cycle(close)]
pub(crate) fn close(
    alloc: Global,
    sig: &Signature,
    ctx: &[SortId],
    equation: &Equation,
    over: &[SortId],
    a: &Term,
    b: &Term,
) -> Result<Closing, OutOfMemory>
    requires few { length ctx.now ≤ 16 }
    requires extends { (n : ℕ) (s : SortId) → slice_get ctx.now n ≡ Some s →
        slice_get over.now n ≡ Some s }
    ensures { IfOk result (IsClosing sig.now ctx.now equation.now over.now a.now b.now) }
{
    if a.same(b) {
        return Ok(Closing::Closed);
    }
    match same_heads(sig, a, b) {
        Some((xs, ys)) => {
            if close_all(alloc, sig, ctx, equation, over, xs, ys)? {
                Ok(Closing::Closed)
            } else {
                Ok(Closing::Open)
            }
        }
        None => {
            if is_instance(alloc, sig, ctx, equation, over, a, b)? {
                return Ok(Closing::ByInstance);
            }
            if is_instance(alloc, sig, ctx, equation, over, b, a)? {
                return Ok(Closing::ByInstance);
            }
            Ok(Closing::Open)
        }
    }
}

/// Whether all pairs of the terms are closed.
#[cycle(close)]
fn close_all(
    alloc: Global,
    sig: &Signature,
    ctx: &[SortId],
    equation: &Equation,
    over: &[SortId],
    xs: &[Term],
    ys: &[Term],
) -> Result<bool, OutOfMemory>
    requires few { length ctx.now ≤ 16 }
    requires extends { (n : ℕ) (s : SortId) → slice_get ctx.now n ≡ Some s →
        slice_get over.now n ≡ Some s }
    ensures { IfOk result (AreClosing sig.now ctx.now equation.now over.now xs.now ys.now) }
{
    let first = front(xs);
    let other = front(ys);
    match (first, other) {
        (None, None) => Ok(true),
        (Some((x, xs)), Some((y, ys))) => match close(alloc, sig, ctx, equation, over, x, y)? {
            Closing::Open => Ok(false),
            _ => close_all(alloc, sig, ctx, equation, over, xs, ys),
        },
        _ => Ok(false),
    }
}

/// The arguments of both terms if they have the same constructor at the head.
fn same_heads<'a>(sig: &Signature, a: &'a Term, b: &'a Term) -> Option<(&'a [Term], &'a [Term])>
    ensures { MatchOption result (HaveSameHead sig.now a.now b.now → ⊥)
        (λ p. (f : ℕ) × IsConstructor sig.now f × (a.now ≡ application f (trees_of p.0.now))
        × (b.now ≡ application f (trees_of p.1.now))) }
{
    let TermNode::App(f, xs) = &a.node else {
        return None;
    };
    let TermNode::App(g, ys) = &b.node else {
        return None;
    };
    if f == g && f.0 < sig.constructors() {
        Some((xs.as_slice(), ys.as_slice()))
    } else {
        None
    }
}
