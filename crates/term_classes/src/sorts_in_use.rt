//! The sorts that symbols take or give, and variables of these sorts.

use spec_core::Signature;
use std::alloc::Global;
use term_core::{OutOfMemory, SortId, SymId};

/// Whether one of the symbols takes or gives the sort.
pub(crate) fn is_in_use(sig: &Signature, symbols: &[SymId], sort: SortId) -> bool {
    for sym in symbols {
        if is_used_by(sig, *sym, sort) {
            return true;
        }
    }
    false
}

fn is_used_by(sig: &Signature, sym: SymId, sort: SortId) -> bool {
    if sym.0 >= sig.symbols() {
        return false;
    }
    let info = sig.info(sym);
    info.result == sort || info.args.as_slice().contains(&sort)
}

/// The sorts of the variables of terms, in the order of their numbers: `each` of every sort that
/// is in use. `Bool` has none, since a lemma says more of its two values than of a variable.
pub(crate) fn variable_sorts(
    alloc: Global,
    sig: &Signature,
    symbols: &[SymId],
    each: u32,
) -> Result<Vec<SortId>, OutOfMemory> {
    let mut sorts = Vec::new(alloc);
    for number in 1..sig.sorts() {
        let sort = SortId(number);
        if is_in_use(sig, symbols, sort) {
            add_copies(&mut sorts, sort, each)?;
        }
    }
    Ok(sorts)
}

/// Adds the sort as often as that.
fn add_copies(sorts: &mut Vec<SortId>, sort: SortId, count: u32) -> Result<(), OutOfMemory> {
    for _ in 0..count {
        sorts.push(sort)?;
    }
    Ok(())
}
