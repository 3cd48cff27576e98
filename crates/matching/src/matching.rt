//! `matches` and `fits`: the substitution of a match, and whether there is one.

ghost use Rattle.std.specs.Prelude.{IfOk, IfSome};
ghost use Rattle.std.specs.Option.{IfNone};
ghost use Rattle.matching.specs.Matching.{IsMatch, HasNoMatch, Fits};

use crate::binding::bind;
use crate::bindings::Bindings;
use std::alloc::Global;
use substitutions::Subst;
use term_core::{OutOfMemory, Term};

/// The substitution of the pattern's variables that makes it the term, or None if none does. A
/// variable that occurs twice in the pattern must meet the same tree. Each bound term is copied
/// once, after the match. The cost is linear in both sizes and in the greatest number of a
/// variable.
pub fn matches(alloc: Global, pattern: &Term, term: &Term) -> Result<Option<Subst>, OutOfMemory>
    ensures matching { IfOk result (λ found.
        IfSome found (λ s. IsMatch pattern.now term.now s.terms)) }
    ensures none { IfOk result (λ found. IfNone found (HasNoMatch pattern.now term.now)) }
{
    let mut bindings = Bindings::new(alloc);
    if bind(pattern, term, &mut bindings)? {
        Ok(Some(bindings.copied(alloc)?))
    } else {
        Ok(None)
    }
}

/// Whether some substitution makes the pattern the term. No term is copied, and memory is asked for
/// only when a variable is met.
pub fn fits(alloc: Global, pattern: &Term, term: &Term) -> Result<bool, OutOfMemory>
    ensures { IfOk result (Fits pattern.now term.now) }
{
    let mut bindings = Bindings::new(alloc);
    bind(pattern, term, &mut bindings)
}
