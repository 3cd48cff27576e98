//! `test_set`: the constructors of a sort, applied to variables.

ghost use Rattle.std.specs.Prelude.{◌≡◌, ◌<◌, ◌^◌, IfOk, map};
ghost use Rattle.term_core.specs.Tree.{app as application, trees_of};
ghost use Rattle.spec_core.specs.WellSorted.{HasFewArguments};
ghost use Rattle.clause_core.specs.Instances.{variables};
ghost use Rattle.test_sets.specs.TestSets.{test_set_of};

use spec_core::Signature;
use std::alloc::Global;
use term_core::{OutOfMemory, SortId, SymId, Term, Terms, VarId};

/// The test set of a sort: each of its constructors, in order, applied to the variables 0, 1 and so
/// on (after Bouhoula and Rusinowitch, 1995, for constructors without equations). Each value of
/// the sort is an instance of one of them.
pub fn test_set(alloc: Global, sig: &Signature, sort: SortId) -> Result<Vec<Term>, OutOfMemory>
    requires { HasFewArguments sig.now }
    ensures { IfOk result (λ made. made.items ≡ test_set_of sig.now sort) }
{
    let constructors = sig.constructors_of(alloc, sort)?;
    let mut made = Vec::with_capacity(alloc, constructors.len())?;
    for sym in constructors.as_slice() {
        let arguments = sig.info(*sym).args.len();
        made.push(applied(alloc, *sym, arguments)?)?;
    }
    Ok(made)
}

/// The symbol applied to this many variables, from 0 on.
fn applied(alloc: Global, sym: SymId, arguments: usize) -> Result<Term, OutOfMemory>
    requires { arguments < 2 ^ 32 }
    ensures { IfOk result (λ made. made ≡ application sym.0 (trees_of (variables 0 arguments))) }
{
    let mut made = Terms::with_capacity(alloc, arguments)?;
    for number in 0..arguments {
        made.push(Term::var(VarId(number as u32)))?;
    }
    Ok(Term::app(sym, made))
}
