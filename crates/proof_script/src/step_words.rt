//! The only word of a line.

ghost use Rattle.std.specs.Prelude.{◌∷◌, [], ℕ, List, Bool, IfOk, MatchOption};
ghost use Rattle.spec_core.specs.Sig.{Sig};
ghost use Rattle.spec_core.specs.Declarations.{IsDeclared};
ghost use Rattle.proof_script.specs.LineWords.{AreWords};
ghost use Rattle.proof_script.specs.Words.{equation};

use crate::line_words::next_equation;

/// The conclusion (true) or premise that is the only word, and its number.
pub fn only_equation(words: &[u8]) -> Option<(bool, u16)>
    ensures { MatchOption result
        ((sig : Sig) → IsDeclared sig → (conclusion : Bool) (n : ℕ)
        → AreWords sig words.now (equation conclusion n ∷ []) → ⊥)
        (λ p. (sig : Sig) → AreWords sig words.now (equation p.0 p.1 ∷ [])) }
{
    let (conclusion, number, rest) = next_equation(words)?;
    if rest.is_empty() {
        Some((conclusion, number))
    } else {
        None
    }
}

/// The number of the conclusion (true) or premise that is the only word.
pub fn only_number(words: &[u8], conclusion: bool) -> Option<u16>
    ensures { MatchOption result
        ((sig : Sig) → IsDeclared sig → (n : ℕ)
        → AreWords sig words.now (equation conclusion n ∷ []) → ⊥)
        (λ n. (sig : Sig) → AreWords sig words.now (equation conclusion n ∷ [])) }
{
    let (found, number) = only_equation(words)?;
    if found == conclusion {
        Some(number)
    } else {
        None
    }
}
