//! A side with a constructor of fresh variables for a variable.

ghost use Rattle.std.specs.Prelude.{◌≡◌, ◌+◌, ◌<◌, ◌^◌, IfOk};
ghost use Rattle.term_core.specs.Tree.{Tree, app as application, trees_of};
ghost use Rattle.substitutions.specs.Substitution.{apply};
ghost use Rattle.clause_core.specs.Instances.{variables};
ghost use Rattle.plain_proof.specs.Cases.{only};

use std::alloc::Global;
use substitutions::Subst;
use term_core::{OutOfMemory, SymId, Term, Terms, VarId};

/// The substitution of the symbol, applied to `count` fresh variables from `from` on, for the
/// variable.
pub(crate) fn case_of(
    alloc: Global,
    var: VarId,
    sym: SymId,
    from: usize,
    count: usize,
) -> Result<Subst, OutOfMemory>
    requires { from + count < 2 ^ 32 }
    ensures { IfOk result (λ made. (t : Tree) → apply made.terms t
        ≡ apply (only var.0 (application sym.0 (trees_of (variables from count)))) t) }
{
    let pattern = Term::app(sym, fresh(alloc, from, count)?);
    let mut made = Subst::new(alloc);
    made.set(alloc, var, pattern)?;
    Ok(made)
}

/// This many variables, from a number on.
fn fresh(alloc: Global, from: usize, count: usize) -> Result<Terms, OutOfMemory>
    requires { from + count < 2 ^ 32 }
    ensures { IfOk result (λ made. made ≡ variables from count) }
{
    let mut made = Terms::with_capacity(alloc, count)?;
    for number in 0..count {
        made.push(Term::var(VarId((from + number) as u32)))?;
    }
    Ok(made)
}
