//! The small value of each sort, by rounds.

ghost use Rattle.std.specs.Prelude.{◌≡◌, ◌≤◌, ◌<◌, ◌+◌, min, IfOk, MatchOption, MatchBool, length};
ghost use Rattle.std.specs.Prelude.{slice_index, sum};
ghost use Rattle.std.specs.List.{AllByRecursion};
ghost use Rattle.term_core.specs.Tree.{trees_of};
ghost use Rattle.spec_core.specs.Sig.{IsSort, SortsAreInRange};
ghost use Rattle.spec_core.specs.Small.{IsFirstWithout, AllHaveSmallValues, IsSmall, AreSmall};
ghost use Rattle.spec_core.specs.Sizes.{sum_of, AreReached, AreSettled, AreLeast};

use crate::symbols::Signature;
use crate::tables::Tables;
use std::alloc::Global;
use term_core::{OutOfMemory, SortId, SymId, Term, Terms};

/// The most symbols of a small value: of each value that a search tries.
pub const SMALL_VALUE_SYMBOLS: u16 = 255;

impl Signature {
    /// The small value of the sort: of the constructors that make a value of the fewest symbols
    /// the first, on the small values of its argument sorts. It has at most 255 symbols.
    pub fn small(&self, alloc: Global, sort: SortId) -> Result<Term, OutOfMemory>
        requires in_range { IsSort self.now sort }
        ensures { IfOk result (IsSmall self.now sort) }
    {
        let least = least_sizes(alloc, &self.tables)?;
        small_by(alloc, &self.tables, &least, sort)
    }
}

/// The first sort without a value of at most 255 symbols.
pub(crate) fn first_without(alloc: Global, tables: &Tables) -> Result<Option<SortId>, OutOfMemory>
    requires { SortsAreInRange tables.now }
    ensures { IfOk result (λ r.
        MatchOption r (AllHaveSmallValues tables.now) (IsFirstWithout tables.now)) }
{
    let least = least_sizes(alloc, tables)?;
    for sort in 0..tables.sorts() {
        if least[sort as usize] > SMALL_VALUE_SYMBOLS {
            return Ok(Some(SortId(sort)));
        }
    }
    Ok(None)
}

/// The least sizes of the sorts' values, or 256 if there is none of at most 255.
fn least_sizes(alloc: Global, tables: &Tables) -> Result<Vec<u16>, OutOfMemory>
    requires { SortsAreInRange tables.now }
    ensures { IfOk result (λ least. AreLeast tables.now least.items) }
{
    let mut least = Vec::from_elem(alloc, 256u16, tables.sorts() as usize)?;
    while lower_all(tables, &mut least) {}
    Ok(least)
}

/// Lowers the numbers by each constructor once, and says whether one was lowered.
fn lower_all(tables: &Tables, least: &mut [u16]) -> bool
    requires in_range { SortsAreInRange tables.now }
    requires reached { AreReached tables.now least.old }
    ensures reached { AreReached tables.now least.new }
    ensures lowered { MatchBool result (sum least.new < sum least.old)
        (AreSettled tables.now least.new) }
{
    let mut lowered = false;
    for number in 0..tables.constructors() {
        let info = tables.info(SymId(number));
        let size = application_size(least, info.args.as_slice());
        let place = info.result.0 as usize;
        if size < u32::from(least[place]) {
            least[place] = size as u16;
            lowered = true;
        }
    }
    lowered
}

/// One more than the sum of the sorts' numbers, or 256 if that is less.
fn application_size(least: &[u16], args: &[SortId]) -> u32
    requires { AllByRecursion (λ s. s.0 < length least.now) args.now }
    ensures { result ≡ min (1 + sum_of least.now args.now) 256 }
{
    let mut size: u32 = 1;
    for sort in args {
        size = (size + u32::from(least[sort.0 as usize])).min(256);
    }
    size
}

/// The small value of the sort, by the least sizes.
#[cycle(small)]
fn small_by(
    alloc: Global,
    tables: &Tables,
    least: &[u16],
    sort: SortId,
) -> Result<Term, OutOfMemory>
    requires in_range { SortsAreInRange tables.now }
    requires least { AreLeast tables.now least.now }
    requires small { slice_index least.now sort.0 ≤ 255 }
    requires sort { IsSort tables.now sort }
    ensures { IfOk result (IsSmall tables.now sort) }
{
    for number in 0..tables.constructors() {
        let info = tables.info(SymId(number));
        if info.result.0 == sort.0 {
            let size = application_size(least, info.args.as_slice());
            if size == u32::from(least[sort.0 as usize]) {
                let args = smalls_by(alloc, tables, least, info.args.as_slice())?;
                return Ok(Term::app(SymId(number), args));
            }
        }
    }
    unreachable!()
}

/// The small values of the sorts.
#[cycle(small)]
fn smalls_by(
    alloc: Global,
    tables: &Tables,
    least: &[u16],
    sorts: &[SortId],
) -> Result<Terms, OutOfMemory>
    requires in_range { SortsAreInRange tables.now }
    requires least { AreLeast tables.now least.now }
    requires small { sum_of least.now sorts.now ≤ 255 }
    requires sorts { AllByRecursion (IsSort tables.now) sorts.now }
    ensures { IfOk result (λ made. AreSmall tables.now sorts.now (trees_of made)) }
{
    let mut made = Terms::new(alloc);
    for sort in sorts {
        made.push(small_by(alloc, tables, least, *sort)?)?;
    }
    Ok(made)
}
