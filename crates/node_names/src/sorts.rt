//! The sorts of variables of a pattern.

use spec_core::Signature;
use term_core::{OutOfMemory, SortId, Term, TermNode};

/// Adds the sorts of the pattern's variables, from the left, where the pattern has this sort.
#[cycle(add_sorts)]
pub(crate) fn add_sorts(
    sig: &Signature,
    pattern: &Term,
    sort: SortId,
    found: &mut Vec<SortId>,
) -> Result<(), OutOfMemory> {
    match &pattern.node {
        TermNode::Var(_) => {
            found.push(sort)?;
            Ok(())
        }
        TermNode::App(sym, args) => {
            if sym.0 >= sig.symbols() {
                return Ok(());
            }
            add_all_sorts(sig, args.as_slice(), sig.info(*sym).args.as_slice(), found)
        }
    }
}

/// Adds those of the variables of the patterns, which have these sorts.
#[cycle(add_sorts)]
fn add_all_sorts(
    sig: &Signature,
    patterns: &[Term],
    sorts: &[SortId],
    found: &mut Vec<SortId>,
) -> Result<(), OutOfMemory> {
    for (place, pattern) in patterns.iter().enumerate() {
        if let Some(sort) = sorts.get(place) {
            add_sorts(sig, pattern, *sort, found)?;
        }
    }
    Ok(())
}
