//! A side's normal form, one use at a time, with each clause on the way within the limits.

ghost use Rattle.std.specs.Prelude.{◌≡◌, IfOk};
ghost use Rattle.spec_core.specs.WellSorted.{IsWellSorted};
ghost use Rattle.term_core.specs.Tree.{Tree};
ghost use Rattle.normalization.specs.FirstUses.{IsFirstUse};
ghost use Rattle.normalization.specs.Narrow.{IsNarrow};
ghost use Rattle.plain_proof.specs.Staying.{HasSide};

use crate::limits::are_within;
use matching::matches;
use normalization::Rewriter;
use spec_core::Spec;
use std::alloc::Global;
use term_core::{OutOfMemory, ReplaceError, Term};

/// The normal form of a side with the number of its uses, if it needs at most `budget` and each
/// term on the way is within the limits beside the other side. It stops at the first term that
/// isn't, so no term grows beyond the limits.
pub(crate) fn normal_side(
    alloc: Global,
    spec: &Spec,
    rewriter: &Rewriter,
    other: &Term,
    term: Term,
    budget: u32,
) -> Result<Option<(Term, u32)>, OutOfMemory>
    requires fine { IsWellSorted spec.now }
    requires its { rewriter.now ≡ spec.now }
    requires narrow { IsNarrow term }
    ensures { IfOk result (HasSide spec.now other.now term budget) }
{
    let mut last = term;
    for uses in 0..budget {
        let Some((place, number)) = rewriter.first_use(alloc, &last)? else {
            return Ok(Some((last, uses)));
        };
        let next = after_use(alloc, spec, &last, place.as_slice(), number)?;
        if !are_within(alloc, &next, other)? {
            return Ok(None);
        }
        last = next;
    }
    match rewriter.first_use(alloc, &last)? {
        None => Ok(Some((last, budget))),
        Some(_) => Ok(None),
    }
}

/// The term after its leftmost-innermost use, which is that of the rule with this number at this
/// place.
fn after_use(
    alloc: Global,
    spec: &Spec,
    term: &Term,
    place: &[u8],
    number: u32,
) -> Result<Term, OutOfMemory>
    requires fine { IsWellSorted spec.now }
    requires first { (u : Tree) × IsFirstUse spec.now term.now place.now number u }
    ensures { IfOk result (λ made. IsFirstUse spec.now term.now place.now number made) }
{
    let rule = &spec.rules.as_slice()[number as usize - 1];
    let Some(old) = term.at(place) else {
        unreachable!();
    };
    match matches(alloc, &rule.left, old)? {
        None => unreachable!(),
        Some(entries) => {
            let new = entries.apply(alloc, &rule.right)?;
            match term.replace(alloc, place, new) {
                Ok(made) => Ok(made),
                Err(ReplaceError::OutOfMemory) => Err(OutOfMemory),
                Err(ReplaceError::NoSuchPlace) => unreachable!(),
            }
        }
    }
}
