//! The first character of a text, with what follows it.

ghost use Rattle.std.specs.Prelude.{◌≡◌, ◌<◌, [], ◌∷◌, ◌++◌, encode_utf8, length, MatchOption};
ghost use Rattle.std.specs.Str.{chars, IsUtf8};

/// The first character, and what follows it.
pub(crate) fn first_char(text: &str) -> Option<(char, &str)>
    ensures { MatchOption result ((chars text.now ≡ []) × (text.now ≡ []))
        (λ (c, rest). (chars text.now ≡ c ∷ chars rest.now) × (length rest.now < length text.now)
        × (text.now ≡ encode_utf8 c ++ rest.now) × IsUtf8 rest.now) }
{
    let mut chars = text.chars();
    match chars.next() {
        Some(c) => Some((c, chars.as_str())),
        None => None,
    }
}
