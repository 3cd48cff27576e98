//! Names that no symbol has, and copies of symbols.

ghost use Rattle.std.specs.Prelude.{◌≡◌, ◌≤◌, ◌<◌, ◌+◌, ◌-◌, ◌++◌, ◌^◌, IfOk, Some, drop, length};
ghost use Rattle.std.specs.Prelude.{slice_get, take};
ghost use Rattle.spec_core.specs.Sig.{names_of};
ghost use Rattle.open_evaluation.specs.Marks.{marks, marks_from, marked_constants, AreWithin};

use spec_core::{Signature, SymInfo};
use std::alloc::Global;
use term_core::{Name, OutOfMemory, Seq, SortId, SymId};

/// A name of this many question marks.
fn marks_name(alloc: Global, count: usize) -> Result<Name, OutOfMemory>
    ensures { IfOk result (λ name. name ≡ marks count) }
{
    Ok(Name::from_bytes(Vec::from_elem(alloc, b'?', count)?))
}

/// This many names that differ from one another and from `Bool`.
pub(crate) fn sort_names(alloc: Global, count: u32) -> Result<Seq<Name>, OutOfMemory>
    ensures { IfOk result (λ names. names ≡ marks_from 5 count) }
{
    let mut names = Seq::new(alloc);
    for number in 0..count {
        names.push(marks_name(alloc, 5 + number as usize)?)?;
    }
    Ok(names)
}

/// Constants of these sorts after the symbols, from a name of `first` question marks on.
pub(crate) fn add_constants(
    alloc: Global,
    symbols: &mut Seq<(Name, SymInfo)>,
    first: usize,
    sorts: &[SortId],
) -> Result<(), OutOfMemory>
    requires { first + length sorts.now < 2 ^ 64 }
    ensures { IfOk result (λ _. symbols.new ≡ symbols.old ++ marked_constants first sorts.now) }
{
    for (place, sort) in sorts.iter().enumerate() {
        let name = marks_name(alloc, first + place)?;
        let args = Seq::new(alloc);
        let result = *sort;
        symbols.push((name, SymInfo { args, result }))?;
    }
    Ok(())
}

/// The length of the longest name of a symbol.
pub(crate) fn longest_name(sig: &Signature) -> usize
    ensures within { AreWithin result (names_of sig.now) }
    ensures small { result < 2 ^ 63 }
{
    let mut longest = 0;
    for number in 0..sig.symbols() {
        longest = longest.max(sig.name(SymId(number)).len());
    }
    longest
}

/// The symbols with numbers from `from` on and below `to`.
pub(crate) fn copy_symbols(
    alloc: Global,
    sig: &Signature,
    from: u32,
    to: u32,
) -> Result<Seq<(Name, SymInfo)>, OutOfMemory>
    requires order { from ≤ to }
    requires in_range { to ≤ length sig.now.table }
    ensures { IfOk result (λ copies. copies ≡ drop from (take to sig.now.table)) }
{
    let mut copies = Seq::new(alloc);
    for number in from..to {
        copies.push(copy_symbol(alloc, sig, SymId(number))?)?;
    }
    Ok(copies)
}

fn copy_symbol(alloc: Global, sig: &Signature, sym: SymId) -> Result<(Name, SymInfo), OutOfMemory>
    requires { sym.0 < length sig.now.table }
    ensures { IfOk result (λ copy. slice_get sig.now.table sym.0 ≡ Some copy) }
{
    let name = Name::of(alloc, sig.name(sym))?;
    let info = sig.info(sym);
    let args = Seq::from_vec(Vec::from_slice(alloc, info.args.as_slice())?);
    let result = info.result;
    Ok((name, SymInfo { args, result }))
}
