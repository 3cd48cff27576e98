//! The next line of a text, and the next word of a line: numbers, variables, equations, sides and
//! names.

ghost use Rattle.std.specs.Prelude.{◌≡◌, ◌++◌, ℕ, List, Bool, false, IfOk, MatchOption, codes};
ghost use Rattle.spec_core.specs.Sig.{Sig};
ghost use Rattle.proof_script.specs.Faults.{IsOneLine};
ghost use Rattle.proof_script.specs.LineWords.{IsPlainWordAt, IsWordAt};
ghost use Rattle.proof_script.specs.Words.{equation, name, number, side, variable};

use crate::names::is_report_name;
use crate::numbers::read_number;
use crate::places::read_equation;
use crate::terms::{after, ends, split_word};
use std::alloc::Global;
use term_core::{Name, OutOfMemory, VarId};

/// The bytes before the first newline, and those after it.
pub fn split_line(bytes: &[u8]) -> Option<(&[u8], &[u8])>
    ensures { MatchOption result (IsOneLine bytes.now)
        (λ p. IsOneLine p.0.now × (bytes.now ≡ (p.0.now ++ codes "\n") ++ p.1.now)) }
{
    let end = bytes.iter().position(|byte| *byte == b'\n')?;
    Some((&bytes[..end], &bytes[end + 1..]))
}

/// The bytes of the word after the blank at the front, and what follows them.
pub fn next_word(bytes: &[u8]) -> Option<(&[u8], &[u8])>
    ensures { MatchOption result
        ((word rest : List ℕ) → IsPlainWordAt bytes.now word rest → ⊥)
        (λ p. IsPlainWordAt bytes.now p.0.now p.1.now) }
{
    let (word, rest) = split_word(after(bytes, b" ")?);
    if ends(rest) { Some((word, rest)) } else { None }
}

/// The number that is the next word, and what follows it.
pub fn next_number(bytes: &[u8]) -> Option<(u32, &[u8])>
    ensures { MatchOption result
        ((sig : Sig) (n : ℕ) (rest : List ℕ) → IsWordAt sig bytes.now (number n) rest → ⊥)
        (λ p. (sig : Sig) → IsWordAt sig bytes.now (number p.0) p.1.now) }
{
    let (word, rest) = next_word(bytes)?;
    Some((read_number(word)?, rest))
}

/// The variable that is the next word, and what follows it.
pub fn next_variable(bytes: &[u8]) -> Option<(VarId, &[u8])>
    ensures { MatchOption result
        ((sig : Sig) (n : ℕ) (rest : List ℕ) → IsWordAt sig bytes.now (variable n) rest → ⊥)
        (λ p. (sig : Sig) → IsWordAt sig bytes.now (variable p.0.0) p.1.now) }
{
    let (word, rest) = next_word(bytes)?;
    let digits = after(word, b"?")?;
    Some((VarId(read_number(digits)?), rest))
}

/// The conclusion (true) or premise that is the next word, and what follows it.
pub fn next_equation(bytes: &[u8]) -> Option<(bool, u16, &[u8])>
    ensures { MatchOption result
        ((sig : Sig) (conclusion : Bool) (n : ℕ) (rest : List ℕ)
        → IsWordAt sig bytes.now (equation conclusion n) rest → ⊥)
        (λ p. (sig : Sig) → IsWordAt sig bytes.now (equation p.0 p.1) p.2.now) }
{
    let (word, rest) = next_word(bytes)?;
    let (conclusion, number) = read_equation(word)?;
    Some((conclusion, number, rest))
}

/// Whether the next word is the left side (true) or the right one, and what follows it.
pub fn next_side(bytes: &[u8]) -> Option<(bool, &[u8])>
    ensures { MatchOption result
        ((sig : Sig) (left : Bool) (rest : List ℕ) → IsWordAt sig bytes.now (side left) rest → ⊥)
        (λ p. (sig : Sig) → IsWordAt sig bytes.now (side p.0) p.1.now) }
{
    let (word, rest) = next_word(bytes)?;
    if word == b"l".as_slice() {
        Some((true, rest))
    } else if word == b"r".as_slice() {
        Some((false, rest))
    } else {
        None
    }
}

/// The name that is the next word, and what follows it.
pub fn next_name(alloc: Global, bytes: &[u8]) -> Result<Option<(Name, &[u8])>, OutOfMemory>
    ensures { IfOk result (λ o. MatchOption o
        ((sig : Sig) (text rest : List ℕ) → IsWordAt sig bytes.now (name text) rest → ⊥)
        (λ p. (sig : Sig) → IsWordAt sig bytes.now (name p.0) p.1.now)) }
{
    let Some((word, rest)) = next_word(bytes) else {
        return Ok(None);
    };
    if !is_report_name(word) {
        return Ok(None);
    }
    Ok(Some((Name::of(alloc, word)?, rest)))
}

/// The number of the premise that is the next word, and what follows it.
pub fn next_premise(bytes: &[u8]) -> Option<(u16, &[u8])>
    ensures { MatchOption result
        ((sig : Sig) (n : ℕ) (rest : List ℕ) → IsWordAt sig bytes.now (equation false n) rest → ⊥)
        (λ p. (sig : Sig) → IsWordAt sig bytes.now (equation false p.0) p.1.now) }
{
    let (conclusion, number, rest) = next_equation(bytes)?;
    if conclusion {
        None
    } else {
        Some((number, rest))
    }
}
