//! Names that aren't taken.

ghost use Rattle.std.specs.Prelude.{◌≡◌, ◌≤◌, ◌<◌, ◌^◌, ◌↔◌, ℕ, List, Contains, IsTrue, length};
ghost use Rattle.std.specs.Prelude.{IfOk, IfSome};
ghost use Rattle.std.specs.List.{AllByRecursion};
ghost use Rattle.spec_core.specs.Sig.{names_of};
ghost use Rattle.node_names.specs.Names.{IsFree, IsMarked};

use spec_core::{Signature, append_decimal};
use std::alloc::Global;
use term_core::{Name, OutOfMemory, SymId, place_of};

/// How many small numbers are tried, which read best. If they are taken, greater numbers than
/// there are names are likely to be free.
const SMALL_NUMBERS: usize = 8;

/// The most primes that a reader counts at a glance.
const MOST_PRIMES: usize = 3;

/// The stem, with a number or primes after it if it is taken.
pub(crate) fn fresh_name(
    alloc: Global,
    sig: &Signature,
    stem: &[u8],
    taken: &[Name],
) -> Result<Name, OutOfMemory>
    ensures free { IfOk result (IsFree sig.now taken.now) }
    ensures marked { IfOk result (IsMarked stem.now) }
{
    let most = taken.len().saturating_add(sig.symbols() as usize);
    for tried in 0..most {
        let number = if tried < SMALL_NUMBERS {
            tried
        } else {
            taken.len().saturating_add(tried)
        };
        let name = numbered(alloc, stem, number)?;
        if is_free(sig, taken, name.as_bytes()) {
            return Ok(name);
        }
    }
    longer_name(alloc, sig, stem, taken)
}

/// The name with one to three primes more, whichever is free; None where more than three follow.
pub(crate) fn primed_name(
    alloc: Global,
    sig: &Signature,
    name: &[u8],
    taken: &[Name],
) -> Result<Option<Name>, OutOfMemory>
    ensures free { IfOk result (λ found. IfSome found (IsFree sig.now taken.now)) }
    ensures marked { IfOk result (λ found. IfSome found (IsMarked name.now)) }
{
    for count in 1..=MOST_PRIMES {
        let primed = with_primes(alloc, name, count)?;
        if primed.as_bytes().ends_with(b"''''") {
            return Ok(None);
        }
        if is_free(sig, taken, primed.as_bytes()) {
            return Ok(Some(primed));
        }
    }
    Ok(None)
}

/// Whether no symbol has the name and it is none of those that are taken.
pub(crate) fn is_free(sig: &Signature, taken: &[Name], name: &[u8]) -> bool
    ensures { IsTrue result ↔ IsFree sig.now taken.now name.now }
{
    !is_symbol(sig, name) && !is_among(taken, name)
}

/// Whether a symbol has the name.
fn is_symbol(sig: &Signature, name: &[u8]) -> bool
    ensures { IsTrue result ↔ Contains (names_of sig.now) name.now }
{
    sig.symbol(name).is_some()
}

/// Whether the name is one of the names.
fn is_among(names: &[Name], name: &[u8]) -> bool
    ensures { IsTrue result ↔ Contains names.now name.now }
{
    place_of(names, name).is_some()
}

/// The stem for 0, and else the stem with the number after it.
fn numbered(alloc: Global, stem: &[u8], number: usize) -> Result<Name, OutOfMemory>
    ensures { IfOk result (IsMarked stem.now) }
{
    if number == 0 {
        return Name::of(alloc, stem);
    }
    let mut bytes = stem.to_vec(alloc)?;
    append_decimal(number, &mut bytes)?;
    Ok(Name::from_bytes(bytes))
}

/// The stem with this many primes after it.
fn with_primes(alloc: Global, stem: &[u8], count: usize) -> Result<Name, OutOfMemory>
    ensures marked { IfOk result (IsMarked stem.now) }
    ensures long { IfOk result (λ name. count ≤ length name) }
{
    let mut primes = Vec::from_elem(alloc, b'\'', count)?;
    let mut bytes = stem.to_vec(alloc)?;
    bytes.append(&mut primes)?;
    Ok(Name::from_bytes(bytes))
}

/// The stem with primes after it, more than any other name has bytes: so it is free.
fn longer_name(
    alloc: Global,
    sig: &Signature,
    stem: &[u8],
    taken: &[Name],
) -> Result<Name, OutOfMemory>
    ensures free { IfOk result (IsFree sig.now taken.now) }
    ensures marked { IfOk result (IsMarked stem.now) }
{
    let most = longest(taken).max(longest_symbol(sig));
    with_primes(alloc, stem, most + 1)
}

/// The length of the longest name.
fn longest(names: &[Name]) -> usize
    ensures within { AllByRecursion (λ (name : List ℕ). length name ≤ result) names.now }
    ensures small { result < 2 ^ 63 }
{
    let mut most = 0;
    for name in names {
        most = most.max(name.as_bytes().len());
    }
    most
}

/// The length of the longest name of a symbol.
fn longest_symbol(sig: &Signature) -> usize
    ensures within { AllByRecursion (λ (name : List ℕ). length name ≤ result) (names_of sig.now) }
    ensures small { result < 2 ^ 63 }
{
    let mut most = 0;
    for number in 0..sig.symbols() {
        most = most.max(sig.name(SymId(number)).len());
    }
    most
}
