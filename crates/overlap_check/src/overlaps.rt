//! `overlap`: the first pair of left sides that overlap.

ghost use Rattle.std.specs.Prelude.{◌<◌, IfOk, MatchOption, length};
ghost use Rattle.term_core.specs.Tree.{trees_of};
ghost use Rattle.spec_core.specs.WellSorted.{IsWellSorted};
ghost use Rattle.overlap_check.specs.Answers.{IsOverlap};
ghost use Rattle.overlap_check.specs.Searches.{NoneOverlapsAfter, IsFirstAfter};

use crate::answers::Overlap;
use crate::clashes::are_of_two_symbols;
use crate::common_values::common_values;
use spec_core::Spec;
use std::alloc::Global;
use term_core::{OutOfMemory, Seq, Term};

/// The first pair of rules with different left sides that some values match both, by the number of
/// the first rule and then by that of the second. The values are the arguments of the first left
/// side under a most general unifier of both, where each variable that is left has the small value
/// of its sort. Rules with the same left side don't overlap: their guards tell them apart.
///
/// It compares every rule with every later one. Most pairs are of two functions, or have different
/// constructors at one place, and aren't unified (Robinson, 1965).
pub fn overlap(alloc: Global, spec: &Spec) -> Result<Overlap, OutOfMemory>
    requires { IsWellSorted spec.now }
    ensures { IfOk result (IsOverlap spec.now) }
{
    for place in 0..spec.rules.len() {
        if let Some((other, values)) = overlap_after(alloc, spec, place)? {
            return Ok(Overlap::Both {
                first: place as u32 + 1,
                second: other as u32 + 1,
                values,
            });
        }
    }
    Ok(Overlap::Fine)
}

/// The place of the first later rule whose left side overlaps that of the rule at this place, with
/// the values for both.
fn overlap_after(
    alloc: Global,
    spec: &Spec,
    place: usize,
) -> Result<Option<(usize, Seq<Term>)>, OutOfMemory>
    requires fine { IsWellSorted spec.now }
    requires within { place < length spec.now.rules }
    ensures { IfOk result (λ found. MatchOption found
        (NoneOverlapsAfter spec.now place (length spec.now.rules))
        (λ p. IsFirstAfter spec.now place p.0 (trees_of p.1))) }
{
    let rules = spec.rules.as_slice();
    let first = &rules[place];
    for other in place + 1..rules.len() {
        let second = &rules[other];
        if are_of_two_symbols(&first.left, &second.left) {
            continue;
        }
        if let Some(values) = common_values(alloc, &spec.sig, first, second)? {
            return Ok(Some((other, values)));
        }
    }
    Ok(None)
}
