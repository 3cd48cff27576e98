//! Lists of terms and patterns in brackets.

ghost use Rattle.std.specs.Prelude.{ℕ, List, IfOk, MatchOption};
ghost use Rattle.term_core.specs.Tree.{Tree};
ghost use Rattle.spec_core.specs.Declarations.{IsDeclared};
ghost use Rattle.proof_script.specs.Reading.{IsListAt};

use crate::terms::{Cursor, after, read_term};
use crate::words::Variables;
use spec_core::Signature;
use std::alloc::Global;
use term_core::{OutOfMemory, Seq, Term};

/// The greatest depth of a term in a report.
pub const MAX_DEPTH: u32 = 100;

/// The list of terms in brackets at the front of the bytes, and what follows it.
pub fn read_list<'a>(
    alloc: Global,
    sig: &Signature,
    variables: Variables,
    bytes: &'a [u8],
) -> Result<Option<(Seq<Term>, &'a [u8])>, OutOfMemory>
    requires { IsDeclared sig.now }
    ensures { IfOk result (λ o. MatchOption o
        ((ts : List Tree) (rest : List ℕ) → IsListAt sig.now variables bytes.now ts rest → ⊥)
        (λ p. IsListAt sig.now variables bytes.now p.0 p.1.now)) }
{
    let mut made = Seq::new(alloc);
    let Some(mut rest) = after(bytes, b"[") else {
        return Ok(None);
    };
    if let Some(last) = after(rest, b"]") {
        return Ok(Some((made, last)));
    }
    loop {
        let at = Cursor {
            bytes: rest,
            count: 0,
        };
        let Some((term, behind)) = read_term(alloc, sig, variables, MAX_DEPTH, at)? else {
            return Ok(None);
        };
        made.push(term)?;
        if let Some(last) = after(behind.bytes, b"]") {
            return Ok(Some((made, last)));
        }
        let Some(next) = after(behind.bytes, b", ") else {
            return Ok(None);
        };
        rest = next;
    }
}
