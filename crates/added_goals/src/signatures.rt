//! Whether a signature is the one of a text.

ghost use Rattle.std.specs.Prelude.{◌≡◌, ◌<◌, ◌↔◌, ◌∷◌, Some, IsTrue, codes, length, slice_get};
ghost use Rattle.sort_check.specs.Signatures.{sort_names};

use crate::same::Same;
use spec_core::{Signature, SymInfo};
use spec_grammar::RawSort;
use term_core::SymId;

/// Whether the signatures are one. The raw sorts are those that the new one declares.
pub(crate) fn same_signature(old: &Signature, new: &Signature, sorts: &[RawSort]) -> bool
    requires { new.now.sorts ≡ codes "Bool" ∷ sort_names sorts.now }
    ensures { IsTrue result ↔ (new.now ≡ old.now) }
{
    has_sorts(old, sorts) && same_symbols(new, old) && new.constructors() == old.constructors()
}

/// Whether the sorts are `Bool` and the declared ones, in their order.
fn has_sorts(sig: &Signature, sorts: &[RawSort]) -> bool
    ensures { IsTrue result ↔ (sig.now.sorts ≡ codes "Bool" ∷ sort_names sorts.now) }
{
    sig.declared();
    if sig.sorts() as usize != sorts.len() + 1 {
        return false;
    }
    for (number, sort) in sorts.iter().enumerate() {
        if !is_sort_named(sig, number as u32 + 1, sort.head.name.as_bytes()) {
            return false;
        }
    }
    true
}

/// Whether the sort with this number has this name.
fn is_sort_named(sig: &Signature, number: u32, name: &[u8]) -> bool
    ensures { IsTrue result ↔ (slice_get sig.now.sorts number ≡ Some name.now) }
{
    sig.declared();
    match sig.sort(name) {
        Some(sort) => sort.0 == number,
        None => false,
    }
}

/// Whether both have the same symbols, with the same sorts of arguments and results.
fn same_symbols(one: &Signature, other: &Signature) -> bool
    ensures { IsTrue result ↔ (one.now.table ≡ other.now.table) }
{
    if one.symbols() != other.symbols() {
        return false;
    }
    for number in 0..one.symbols() {
        if !same_symbol(one, other, SymId(number)) {
            return false;
        }
    }
    true
}

/// Whether the symbol with this number is the same in both.
fn same_symbol(one: &Signature, other: &Signature, sym: SymId) -> bool
    requires there { sym.0 < length one.now.table }
    requires there_too { sym.0 < length other.now.table }
    ensures { IsTrue result ↔ (slice_get one.now.table sym.0 ≡ slice_get other.now.table sym.0) }
{
    if one.name(sym) != other.name(sym) {
        return false;
    }
    one.info(sym).is_same(other.info(sym))
}

impl Same for SymInfo {
    fn is_same(&self, other: &SymInfo) -> bool {
        self.args.is_same(&other.args) && self.result.is_same(&other.result)
    }
}
