//! Numbers by which most clauses are found to differ.

ghost use Rattle.std.specs.Prelude.{◌≡◌, ◌↔◌, IsTrue, IfOk, Contains, map};
ghost use Rattle.term_core.specs.Tree.{trees_of};
ghost use Rattle.script_trim.specs.Keys.{stirred, hashed, hashed_all, both_hashed};
ghost use Rattle.script_trim.specs.Keys.{equation_key as key_of_equation, key_of, MayClose};

use clause_core::Clause;
use spec_core::Equation;
use std::alloc::Global;
use term_core::{OutOfMemory, Term, TermNode};

/// The odd number next to 2^64 divided by the golden ratio (Knuth, 1973): bits of a product with it
/// depend on all lower ones of the other factor, so the upper half is the key.
const FACTOR: u64 = 0x9e37_79b9_7f4a_7c15;

/// Tells the number of a symbol from that of a variable.
const SYMBOLS: u64 = 0x1_0000_0000;

/// The key of the clause's first conclusion, if it has one. It is found in one walk.
pub(crate) fn key(clause: &Clause) -> Option<u32>
    ensures { result ≡ key_of clause.now }
{
    match clause.conclusions.as_slice() {
        [] => None,
        [first, ..] => Some(equation_key(first)),
    }
}

/// The keys of the clause's conclusions, in their order.
pub(crate) fn conclusion_keys(alloc: Global, clause: &Clause) -> Result<Vec<u32>, OutOfMemory>
    ensures { IfOk result (λ keys. keys.items ≡ map key_of_equation clause.now.conclusions) }
{
    let conclusions = clause.conclusions.as_slice();
    let mut keys = Vec::with_capacity(alloc, conclusions.len())?;
    for equation in conclusions {
        keys.push(equation_key(equation))?;
    }
    Ok(keys)
}

/// Whether a clause of this key may close, as it is, a node whose conclusions have these keys.
pub(crate) fn may_close(keys: &[u32], key: Option<u32>) -> bool
    ensures { IsTrue result ↔ MayClose keys.now key }
{
    match key {
        None => true,
        Some(key) => has_key(keys, key),
    }
}

fn has_key(keys: &[u32], key: u32) -> bool
    ensures { IsTrue result ↔ Contains keys.now key }
{
    keys.contains(&key)
}

/// One number for an equation and its swapped form.
fn equation_key(equation: &Equation) -> u32
    ensures { result ≡ key_of_equation equation.now }
{
    both(hash_term(0, &equation.left), hash_term(0, &equation.right))
}

/// One number for two hashes, in either order.
fn both(hash: u64, other: u64) -> u32
    ensures { result ≡ both_hashed hash other }
{
    (stir(hash.min(other), hash.max(other)) >> 32) as u32
}

/// The hash with the symbols and the variables of the term.
#[cycle(hash)]
fn hash_term(hash: u64, term: &Term) -> u64
    ensures { result ≡ hashed hash term.now }
{
    match &term.node {
        TermNode::Var(var) => stir(hash, u64::from(var.0)),
        TermNode::App(sym, args) => {
            hash_terms(stir(hash, u64::from(sym.0) + SYMBOLS), args.as_slice())
        }
    }
}

/// The hash with those of the terms.
#[cycle(hash)]
fn hash_terms(start: u64, terms: &[Term]) -> u64
    ensures { result ≡ hashed_all start (trees_of terms.now) }
{
    let mut hash = start;
    for term in terms {
        hash = hash_term(hash, term);
    }
    hash
}

/// One more number in a hash.
#[inline(always)]
fn stir(hash: u64, number: u64) -> u64
    ensures { result ≡ stirred hash number }
{
    (hash ^ number).wrapping_mul(FACTOR)
}
