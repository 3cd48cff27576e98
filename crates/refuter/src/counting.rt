//! `count`: how many values a sort has.

ghost use Rattle.std.specs.Prelude.{◌≡◌, ◌<◌, ◌≤◌, ◌+◌, ◌-◌, ◌*◌, ◌^◌, ℕ, [], ◌∷◌, IfOk, min};
ghost use Rattle.std.specs.Prelude.{length, slice_index};
ghost use Rattle.std.specs.List.{AllByRecursion};
ghost use Rattle.spec_core.specs.Sig.{IsSort, SortsAreInRange};
ghost use Rattle.spec_core.specs.Order.{values};
ghost use Rattle.refuter.specs.Counts.{IsCapped, counted, rows_of_size, value_rows_of_size};
ghost use Rattle.refuter.specs.Counts.{values_of_size};
ghost use Rattle.refuter.specs.Sequences.{convolution};

use crate::fewest::MOST_SYMBOLS;
use spec_core::Signature;
use std::alloc::Global;
use std::marker::Model;
use term_core::{OutOfMemory, Seq, SortId, SymId, front};

/// How many numbers of symbols there are, from 0 to that of the largest value.
const SIZES: usize = MOST_SYMBOLS as usize + 1;

/// How many values of at most this depth the sort has, or `cap` if that is less. They are
/// counted by their number of symbols, and none is made: an argument of a constructor costs some
/// 2^15 products at each depth.
pub fn count(
    alloc: Global,
    sig: &Signature,
    sort: SortId,
    depth: u32,
    cap: u32,
) -> Result<u32, OutOfMemory>
    requires sort { IsSort sig.now sort }
    requires in_range { SortsAreInRange sig.now }
    ensures { IfOk result (λ n. n ≡ min (length (values sig.now depth sort)) cap) }
{
    let counts = Counts::new(alloc, sig, depth, cap)?;
    Ok(counts.of(sort))
}

/// How many values of at most a depth each sort has. Contracts see the signature, the depth and the
/// cap. The table has by sort and number of symbols how many values there are, or the cap if
/// that is less: sums and products of such numbers are exact up to the cap.
#[derive(Drop)]
pub(crate) struct Counts<'a> {
    sig: &'a Signature,
    depth: u32,
    cap: u32,
    table: Seq<Seq<u32>>,
}

impl<'a> Model for Counts<'a> {
    ghost use Rattle.refuter.specs.Counts.{AreCounts, Counted, counted};

    ghost Value = { Counted };

    ghost view = { λ c. counted c.sig.now c.depth c.cap };

    ghost invariant = { λ c. AreCounts c.sig.now c.depth c.cap c.table };
}

impl<'a> Counts<'a> {
    pub(crate) fn new(
        alloc: Global,
        sig: &'a Signature,
        depth: u32,
        cap: u32,
    ) -> Result<Counts<'a>, OutOfMemory>
        requires { SortsAreInRange sig.now }
        ensures { IfOk result (λ made. made ≡ counted sig.now depth cap) }
    {
        let mut counts = Counts::none(alloc, sig, cap)?;
        for _round in 0..depth {
            counts = counts.deeper(alloc)?;
        }
        Ok(counts)
    }

    /// How many values the sort has, or the cap if that is less.
    pub(crate) fn of(&self, sort: SortId) -> u32
        requires { IsSort self.now.sig sort }
        ensures { result ≡ min (length (values self.now.sig self.now.depth sort)) self.now.cap }
    {
        let numbers = self.values(sort);
        let mut total: u32 = 0;
        for symbols in 0..SIZES {
            total = total.saturating_add(numbers[symbols]).min(self.cap);
        }
        total
    }

    /// How many values of the sort have this many symbols, by this number.
    fn values(&self, sort: SortId) -> &[u32]
        requires { IsSort self.now.sig sort }
        ensures { IsCapped self.now.cap (values_of_size self.now.sig self.now.depth sort)
            result.now }
    {
        self.table.as_slice()[sort.0 as usize].as_slice()
    }

    /// There are no values of depth 0.
    fn none(alloc: Global, sig: &'a Signature, cap: u32) -> Result<Counts<'a>, OutOfMemory>
        requires { SortsAreInRange sig.now }
        ensures { IfOk result (λ made. made ≡ counted sig.now 0 cap) }
    {
        let mut table = Seq::new(alloc);
        for _sort in 0..sig.sorts() {
            table.push(Seq::from_vec(Vec::from_elem(alloc, 0u32, SIZES)?))?;
        }
        Ok(Counts {
            sig,
            depth: 0,
            cap,
            table,
        })
    }

    /// How many values there are of one more depth.
    fn deeper(&self, alloc: Global) -> Result<Counts<'a>, OutOfMemory>
        requires { self.now.depth + 1 < 2 ^ 32 }
        ensures { IfOk result
            (λ made. made ≡ counted self.now.sig (self.now.depth + 1) self.now.cap) }
    {
        let mut table = Seq::new(alloc);
        for sort in 0..self.sig.sorts() {
            table.push(self.applications(alloc, SortId(sort))?)?;
        }
        Ok(Counts {
            sig: self.sig,
            depth: self.depth + 1,
            cap: self.cap,
            table,
        })
    }

    /// How many values of the sort with one more depth have this many symbols: the applications of
    /// each of its constructors.
    fn applications(&self, alloc: Global, sort: SortId) -> Result<Seq<u32>, OutOfMemory>
        ensures { IfOk result
            (IsCapped self.now.cap (values_of_size self.now.sig (self.now.depth + 1) sort)) }
    {
        let mut numbers = Vec::from_elem(alloc, 0u32, SIZES)?;
        for number in 0..self.sig.constructors() {
            let info = self.sig.info(SymId(number));
            if info.result.0 != sort.0 {
                continue;
            }
            let rows = self.value_rows(alloc, info.args.as_slice())?;
            // An application has one symbol more than its arguments.
            add_multiple(&mut numbers, 1, rows.as_slice(), 1, self.cap);
        }
        Ok(Seq::from_vec(numbers))
    }

    /// How many rows of values of the sorts have this many symbols altogether.
    fn value_rows(&self, alloc: Global, sorts: &[SortId]) -> Result<Seq<u32>, OutOfMemory>
        requires { AllByRecursion (IsSort self.now.sig) sorts.now }
        ensures { IfOk result
            (IsCapped self.now.cap (value_rows_of_size self.now.sig self.now.depth sorts.now)) }
    {
        let Some((sort, others)) = front(sorts) else {
            return one_empty_row(alloc, self.cap);
        };
        let rest = self.value_rows(alloc, others)?;
        convolve(alloc, self.values(*sort), rest.as_slice(), self.cap)
    }
}

/// One row has no symbols, if there are no sorts.
fn one_empty_row(alloc: Global, cap: u32) -> Result<Seq<u32>, OutOfMemory>
    ensures { IfOk result (IsCapped cap (rows_of_size ([] ∷ []))) }
{
    let mut numbers = Vec::from_elem(alloc, 0u32, SIZES)?;
    numbers[0] = cap.min(1);
    Ok(Seq::from_vec(numbers))
}

/// The convolution of two sequences.
fn convolve(alloc: Global, first: &[u32], rest: &[u32], cap: u32) -> Result<Seq<u32>, OutOfMemory>
    requires first { length first.now ≡ 256 }
    requires rest { length rest.now ≡ 256 }
    ensures { IfOk result
        (IsCapped cap (convolution (slice_index first.now) (slice_index rest.now))) }
{
    let mut numbers = Vec::from_elem(alloc, 0u32, SIZES)?;
    for place in 0..SIZES {
        let factor = first[place];
        if factor == 0 {
            continue;
        }
        add_multiple(&mut numbers, factor, rest, place, cap);
    }
    Ok(Seq::from_vec(numbers))
}

/// Adds this many times the others to the numbers from this place on.
fn add_multiple(numbers: &mut [u32], factor: u32, others: &[u32], place: usize, cap: u32)
    requires numbers { length numbers.old ≡ 256 }
    requires others { length others.now ≡ 256 }
    ensures before { (n : ℕ) → n < place → slice_index numbers.new n ≡ slice_index numbers.old n }
    ensures from { (n : ℕ) → place ≤ n → n < 256 → slice_index numbers.new n
        ≡ min (slice_index numbers.old n + factor * slice_index others.now (n - place)) cap }
{
    for symbols in place..SIZES {
        let product = u64::from(factor) * u64::from(others[symbols - place]);
        let sum = u64::from(numbers[symbols]) + product;
        numbers[symbols] = sum.min(u64::from(cap)) as u32;
    }
}
