//! Values and names as texts.

use anyhow::{Result, bail};
use sample_values::{Samples, Value};
use std::alloc::Global;
use std::str;
use term_core::SortId;

/// How many random values of a sort are printed.
const VALUES: u32 = 12;

/// The name of the sort, and random values of it.
pub fn random_line(alloc: Global, samples: &mut Samples, sort: SortId) -> Result<String> {
    let mut line = Vec::new(alloc);
    samples.restart();
    for _value in 0..VALUES {
        if sort.0 < samples.spec().sig.sorts() {
            let room = 1 + samples.number(6);
            let value = samples.random(alloc, sort, room)?;
            line.push(b' ')?;
            append_value(alloc, samples, value, &mut line)?;
        }
    }
    text(alloc, &line)
}

/// Appends the text of the value.
fn append_value(alloc: Global, samples: &Samples, value: Value, line: &mut Vec<u8>) -> Result<()> {
    let Some(term) = samples.term(alloc, value)? else {
        return Ok(());
    };
    samples.spec().sig.print(alloc, &[], &term, line)?;
    Ok(())
}

/// The bytes as a text.
pub fn text(alloc: Global, bytes: &[u8]) -> Result<String> {
    match str::from_utf8(bytes) {
        Ok(text) => Ok(String::from_str(alloc, text)?),
        Err(_) => bail!("no text"),
    }
}
