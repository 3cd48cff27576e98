//! Numbers that are read.

ghost use Rattle.std.specs.Prelude.{ℕ, MatchOption};
ghost use Rattle.proof_script.specs.Reading.{IsNumber};

/// The number that the bytes are the text of: at most nine digits, without a zero before others.
pub fn read_number(bytes: &[u8]) -> Option<u32>
    ensures { MatchOption result ((n : ℕ) → IsNumber bytes.now n → ⊥) (λ n. IsNumber bytes.now n) }
{
    let signed = !bytes.is_empty() && bytes[0] == b'+';
    let padded = bytes.len() > 1 && bytes[0] == b'0';
    if bytes.len() > 9 || signed || padded {
        return None;
    }
    match str::from_utf8(bytes) {
        Ok(text) => text.parse().ok(),
        Err(_) => None,
    }
}
