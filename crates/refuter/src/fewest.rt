//! By depth and sort, the fewest symbols of a value.

ghost use Rattle.std.specs.Prelude.{◌≡◌, ◌<◌, ◌+◌, ◌^◌, ℕ, IfOk, OnOk, MatchBool, min, length, sum};
ghost use Rattle.std.specs.List.{AllByRecursion};
ghost use Rattle.term_core.specs.declared.ids.SortId.{SortId};
ghost use Rattle.spec_core.specs.Sig.{IsSort, SortsAreInRange};
ghost use Rattle.spec_core.specs.Order.{constructors_of};
ghost use Rattle.refuter.specs.Fewest.{total, lowered_by, number_in, AreRowsOf};

use spec_core::{SMALL_VALUE_SYMBOLS, Signature};
use std::alloc::Global;
use term_core::{OutOfMemory, Seq, SortId, SymId};

/// The symbols of the largest value that is tried.
pub(crate) const MOST_SYMBOLS: u32 = SMALL_VALUE_SYMBOLS as u32;

/// Stands for the size of a value if there is none. Sixteen values have fewer symbols.
pub(crate) const NO_VALUE: u32 = 4096;

/// By depth and sort the fewest symbols of a value of at most that depth. The last row serves all
/// greater depths too. A row takes one pass over the constructors, and there are at most 255 rows
/// for each sort.
pub(crate) fn fewest_sizes(alloc: Global, sig: &Signature) -> Result<Seq<Seq<u32>>, OutOfMemory>
    requires { SortsAreInRange sig.now }
    ensures rows { IfOk result (AreRowsOf sig.now) }
    ensures few { OnOk result (sig.now.constructors < 2 ^ 32) }
{
    let mut rows = Seq::new(alloc);
    let mut row = Vec::from_elem(alloc, NO_VALUE, sig.sorts() as usize)?;
    loop {
        let mut next = Vec::from_slice(alloc, &row)?;
        let lowered = lower_all(sig, &row, &mut next);
        rows.push(Seq::from_vec(row))?;
        if !lowered {
            return Ok(rows);
        }
        row = next;
    }
}

/// Lowers the numbers by each constructor's application to arguments as small as `row` says, and
/// tells whether one was lowered.
fn lower_all(sig: &Signature, row: &[u32], next: &mut [u32]) -> bool
    requires in_range { SortsAreInRange sig.now }
    requires long { length row.now ≡ length sig.now.sorts }
    requires same { next.old ≡ row.now }
    ensures each { (s : SortId) → IsSort sig.now s → number_in next.new s
        ≡ lowered_by (number_in row.now) (number_in row.now s) (constructors_of sig.now s) }
    ensures few { sig.now.constructors < 2 ^ 32 }
    ensures fell { MatchBool result (sum next.new < sum row.now) (next.new ≡ row.now) }
{
    let mut lowered = false;
    for number in 0..sig.constructors() {
        let info = sig.info(SymId(number));
        let size = 1 + total_size(row, info.args.as_slice());
        let place = info.result.0 as usize;
        if size <= MOST_SYMBOLS && size < next[place] {
            next[place] = size;
            lowered = true;
        }
    }
    lowered
}

/// The sum of the sorts' numbers, or 4096 if that is less.
pub(crate) fn total_size(row: &[u32], sorts: &[SortId]) -> u32
    requires { AllByRecursion (λ s. s.0 < length row.now) sorts.now }
    ensures { result ≡ min (total (number_in row.now) sorts.now) 4096 }
{
    let mut size: u32 = 0;
    for sort in sorts {
        size = size.saturating_add(row[sort.0 as usize]).min(NO_VALUE);
    }
    size
}
