//! New names for lemmas, in the lines of claims.

use std::alloc::Global;
use term_core::{Name, OutOfMemory};

/// A lemma's name, and the one that it has from now on.
#[derive(Drop)]
pub(crate) struct Renamed {
    pub(crate) old: Name,
    pub(crate) new: Name,
}

/// The lines with the new names. No symbol and no goal of the file has the name of a lemma, so each
/// word that is one stands for the lemma.
pub(crate) fn with_new_names(
    alloc: Global,
    lines: &[u8],
    names: &[Renamed],
) -> Result<Vec<u8>, OutOfMemory> {
    let mut made = Vec::new(alloc);
    let mut word = Vec::new(alloc);
    for byte in lines {
        if is_of_word(*byte) {
            word.push(*byte)?;
        } else {
            append_word(&mut made, &word, names)?;
            word.clear();
            made.push(*byte)?;
        }
    }
    append_word(&mut made, &word, names)?;
    Ok(made)
}

/// Appends the word, or the new name for it.
fn append_word(made: &mut Vec<u8>, word: &[u8], names: &[Renamed]) -> Result<(), OutOfMemory> {
    for name in names {
        if name.old.as_bytes() == word {
            return Ok(made.extend_from_slice(name.new.as_bytes())?);
        }
    }
    Ok(made.extend_from_slice(word)?)
}

/// Whether names may have the byte.
fn is_of_word(byte: u8) -> bool {
    byte == b'_' || byte.is_ascii_alphanumeric() || byte >= 128
}
