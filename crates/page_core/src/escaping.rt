//! Entities in place of special characters.

ghost use Rattle.std.specs.Prelude.{◌≡◌, ◌++◌, IsTrue, OnOk, position};
ghost use Rattle.page_core.specs.Html.{entity, escaped, is_special as is_special_byte};

use term_core::OutOfMemory;

/// Appends a text with an entity for each special character.
pub(crate) fn append_escaped(text: &[u8], out: &mut Vec<u8>) -> Result<(), OutOfMemory>
    ensures { OnOk result (out.new.items ≡ out.old.items ++ escaped text.now) }
{
    let mut rest = text;
    while let Some(at) = first_special(rest) {
        out.extend_from_slice(&rest[..at])?;
        out.extend_from_slice(entity_of(rest[at]))?;
        rest = &rest[at + 1..];
    }
    out.extend_from_slice(rest)?;
    Ok(())
}

/// The place of the first character that has an entity.
fn first_special(text: &[u8]) -> Option<usize>
    ensures { result ≡ position is_special_byte text.now }
{
    text.iter().position(|byte| is_special(*byte))
}

fn is_special(byte: u8) -> bool
    ensures { result ≡ is_special_byte byte }
{
    byte == b'<' || byte == b'>' || byte == b'&' || byte == b'"'
}

fn entity_of(special: u8) -> &'static [u8]
    requires { IsTrue (is_special_byte special) }
    ensures { result.now ≡ entity special }
{
    match special {
        b'<' => b"&lt;",
        b'>' => b"&gt;",
        b'&' => b"&amp;",
        _ => b"&quot;",
    }
}
