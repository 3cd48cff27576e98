//! Terms and patterns that are read.

ghost use Rattle.std.specs.Prelude.{◌≡◌, ◌++◌, ◌↔◌, [], ◌∷◌, ℕ, List, IfOk, IsTrue, MatchOption};
ghost use Rattle.term_core.specs.Tree.{Tree, Trees, var as variable, trees_of, list_of};
ghost use Rattle.term_core.specs.Variables.{occurrences, occurrences_all};
ghost use Rattle.spec_core.specs.Declarations.{IsDeclared};
ghost use Rattle.proof_script.specs.Delimiters.{Ends, is_delimiter as delimits};
ghost use Rattle.proof_script.specs.Delimiters.{is_end as is_end_byte};
ghost use Rattle.proof_script.specs.Reading.{AreArgumentsAt, AreOthersAt, IsFirstWord, IsSymbol};
ghost use Rattle.proof_script.specs.Reading.{CountFrom, IsTermAt, IsVariable, count_after};
ghost use Rattle.proof_script.specs.Standing.{IsShort};

use crate::names::is_report_name;
use crate::numbers::read_number;
use crate::words::Variables;
use spec_core::Signature;
use std::alloc::Global;
use term_core::{OutOfMemory, SymId, Term, Terms, VarId};

/// Bytes that are left to read, after this many variables of a pattern.
#[derive(Clone, Copy)]
pub struct Cursor<'a> {
    pub bytes: &'a [u8],
    pub count: u32,
}

fn is_end(byte: u8) -> bool
    ensures { result ≡ is_end_byte byte }
{
    byte == b'\n' || byte == b' ' || byte == b')' || byte == b',' || byte == b']'
}

fn is_delimiter(byte: u8) -> bool
    ensures { result ≡ delimits byte }
{
    is_end(byte) || byte == b'(' || byte == b'['
}

/// Whether a term may end before these bytes.
pub fn ends(bytes: &[u8]) -> bool
    ensures { IsTrue result ↔ Ends bytes.now }
{
    match bytes.first() {
        Some(byte) => is_end(*byte),
        None => true,
    }
}

/// The bytes up to the first one that ends a word, and the others.
pub fn split_word(bytes: &[u8]) -> (&[u8], &[u8])
    ensures { IsFirstWord bytes.now result.0.now result.1.now }
{
    for (end, byte) in bytes.iter().enumerate() {
        if is_delimiter(*byte) {
            return bytes.split_at(end);
        }
    }
    (bytes, &[])
}

/// What follows the sign at the front of the bytes.
pub fn after<'a>(bytes: &'a [u8], sign: &[u8]) -> Option<&'a [u8]>
    ensures { MatchOption result ((rest : List ℕ) → bytes.now ≡ sign.now ++ rest → ⊥)
        (λ rest. bytes.now ≡ sign.now ++ rest.now) }
{
    bytes.strip_prefix(sign)
}

/// The variable that the word is, after this many of them.
fn read_variable(variables: Variables, count: u32, word: &[u8]) -> Option<VarId>
    ensures { MatchOption result ((n : ℕ) → IsVariable variables count word.now n → ⊥)
        (λ v. IsVariable variables count word.now v.0) }
{
    match variables {
        Variables::Numbered => {
            let number = read_number(word.strip_prefix(b"?")?)?;
            Some(VarId(number))
        }
        Variables::Blank => {
            if word == b"_".as_slice() && count < 1_000_000_000 {
                Some(VarId(count))
            } else {
                None
            }
        }
    }
}

/// The symbol that the word is the name of, if it may appear.
fn read_symbol(sig: &Signature, word: &[u8]) -> Option<SymId>
    ensures { MatchOption result ((f : ℕ) → IsSymbol sig.now word.now f → ⊥)
        (λ f. IsSymbol sig.now word.now f.0) }
{
    match sig.symbol(word) {
        Some(sym) => if is_report_name(word) {
            Some(sym)
        } else {
            None
        },
        None => None,
    }
}

/// The variable, where a term may end before the rest.
fn variable_before(variables: Variables, var: VarId, at: Cursor<'_>) -> Option<(Term, Cursor<'_>)>
    requires short { IsShort var.0 }
    requires counted { CountFrom variables at.count (var.0 ∷ []) }
    ensures { MatchOption result (Ends at.entry.bytes.now → ⊥)
        (λ p. Ends at.entry.bytes.now × (p.0 ≡ variable var.0)
        × (p.1.bytes.now ≡ at.entry.bytes.now)
        × (p.1.count ≡ count_after variables at.entry.count (var.0 ∷ []))) }
{
    if !ends(at.bytes) {
        return None;
    }
    let count = match variables {
        Variables::Numbered => at.count,
        Variables::Blank => var.0 + 1,
    };
    let bytes = at.bytes;
    Some((Term::var(var), Cursor { bytes, count }))
}

/// The term at the front of the bytes, of at most this depth, and what follows it.
#[cycle(terms)]
pub fn read_term<'a>(
    alloc: Global,
    sig: &Signature,
    variables: Variables,
    room: u32,
    at: Cursor<'a>,
) -> Result<Option<(Term, Cursor<'a>)>, OutOfMemory>
    requires { IsDeclared sig.now }
    ensures { IfOk result (λ o. MatchOption o
        ((t : Tree) (rest : List ℕ)
        → IsTermAt sig.now variables room at.entry.count at.entry.bytes.now t rest → ⊥)
        (λ p. IsTermAt sig.now variables room at.entry.count at.entry.bytes.now p.0 p.1.bytes.now
        × (p.1.count ≡ count_after variables at.entry.count (occurrences p.0)))) }
{
    if room == 0 {
        return Ok(None);
    }
    let (word, bytes) = split_word(at.bytes);
    let behind = Cursor {
        bytes,
        count: at.count,
    };
    if let Some(var) = read_variable(variables, at.count, word) {
        return Ok(variable_before(variables, var, behind));
    }
    let Some(sym) = read_symbol(sig, word) else {
        return Ok(None);
    };
    let arity = sig.info(sym).args.len();
    let Some((args, last)) = read_arguments(alloc, sig, variables, room - 1, arity, behind)? else {
        return Ok(None);
    };
    if !ends(last.bytes) {
        return Ok(None);
    }
    Ok(Some((Term::app(sym, args), last)))
}

/// The arguments of a symbol with this number of them, and what follows.
#[cycle(terms)]
fn read_arguments<'a>(
    alloc: Global,
    sig: &Signature,
    variables: Variables,
    room: u32,
    arity: usize,
    at: Cursor<'a>,
) -> Result<Option<(Terms, Cursor<'a>)>, OutOfMemory>
    requires { IsDeclared sig.now }
    ensures { IfOk result (λ o. MatchOption o
        ((ts : Trees) (rest : List ℕ)
        → AreArgumentsAt sig.now variables room at.entry.count arity at.entry.bytes.now ts rest → ⊥)
        (λ p. AreArgumentsAt sig.now variables room at.entry.count arity at.entry.bytes.now
        (trees_of p.0) p.1.bytes.now
        × (p.1.count ≡ count_after variables at.entry.count (occurrences_all (trees_of p.0))))) }
{
    if arity == 0 {
        return Ok(Some((Terms::new(alloc), at)));
    }
    let count = at.count;
    let Some(bytes) = after(at.bytes, b"(") else {
        return Ok(None);
    };
    let Some((first, next)) = read_term(alloc, sig, variables, room, Cursor { bytes, count })?
    else {
        return Ok(None);
    };
    // a vector that grows has room for four terms at once, and most symbols have one argument
    let mut made = Terms::with_capacity(alloc, arity)?;
    made.push(first)?;
    let Some(last) = read_others(alloc, sig, variables, room, arity - 1, next, &mut made)? else {
        return Ok(None);
    };
    let count = last.count;
    let Some(bytes) = after(last.bytes, b")") else {
        return Ok(None);
    };
    Ok(Some((made, Cursor { bytes, count })))
}

/// Reads this many further terms, each after a comma and a blank.
#[cycle(terms)]
fn read_others<'a>(
    alloc: Global,
    sig: &Signature,
    variables: Variables,
    room: u32,
    many: usize,
    at: Cursor<'a>,
    made: &mut Terms,
) -> Result<Option<Cursor<'a>>, OutOfMemory>
    requires declared { IsDeclared sig.now }
    requires ends { Ends at.bytes.now }
    ensures { IfOk result (λ o. MatchOption o
        ((ts : Trees) (rest : List ℕ)
        → AreOthersAt sig.now variables room at.entry.count many at.entry.bytes.now ts rest → ⊥)
        (λ p. (ts : Trees)
        × AreOthersAt sig.now variables room at.entry.count many at.entry.bytes.now ts p.bytes.now
        × (made.new ≡ made.old ++ list_of ts)
        × (p.count ≡ count_after variables at.entry.count (occurrences_all ts)))) }
{
    if many == 0 {
        return Ok(Some(at));
    }
    let count = at.count;
    let Some(bytes) = after(at.bytes, b", ") else {
        return Ok(None);
    };
    let Some((term, next)) = read_term(alloc, sig, variables, room, Cursor { bytes, count })? else {
        return Ok(None);
    };
    made.push(term)?;
    let Some(last) = read_others(alloc, sig, variables, room, many - 1, next, made)? else {
        return Ok(None);
    };
    Ok(Some(last))
}
