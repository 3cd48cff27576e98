//! Equations by their words.

ghost use Rattle.std.specs.Prelude.{◌≡◌, ℕ, Bool, MatchOption};
ghost use Rattle.proof_script.specs.Reading.{IsEquation, IsIndex};

use crate::numbers::read_number;
use crate::terms::after;

const MAX_INDEX: u32 = 9999;

/// The conclusion (true) or premise that the word is, and its number.
pub fn read_equation(word: &[u8]) -> Option<(bool, u16)>
    ensures { MatchOption result
        ((conclusion : Bool) (n : ℕ) → IsEquation word.now conclusion n → ⊥)
        (λ p. IsEquation word.now p.0 p.1) }
{
    match after(word, b"c") {
        Some(digits) => Some((true, read_index(digits)?)),
        None => Some((false, read_index(after(word, b"p")?)?)),
    }
}

/// The number of an equation.
fn read_index(digits: &[u8]) -> Option<u16>
    ensures { MatchOption result ((n : ℕ) → IsIndex digits.now n → ⊥)
        (λ n. IsIndex digits.now n) }
{
    let number = read_number(digits)?;
    if number == 0 || number > MAX_INDEX {
        return None;
    }
    Some(number as u16)
}
