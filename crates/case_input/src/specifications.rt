//! A text, read and sorted.

ghost use Rattle.std.specs.Prelude.{IfOk};
ghost use Rattle.spec_core.specs.WellSorted.{IsWellSorted};

use anyhow::{Result, bail};
use sort_check::elaborate;
use spec_core::Spec;
use spec_syntax::read;
use std::alloc::Global;
use std::io::{BufRead, Lines};

/// The specification of a text.
pub fn specification(alloc: Global, bytes: &[u8]) -> Result<Spec>
    ensures sorted { IfOk result (λ spec. IsWellSorted spec) }
{
    match read(alloc, bytes) {
        Ok(raw) => match elaborate(alloc, &raw) {
            Ok(spec) => Ok(spec),
            Err(fault) => bail!("the specification isn't sorted: {fault}"),
        },
        Err(fault) => bail!("the specification isn't read: {fault}"),
    }
}

/// The lines up to one that is `end`, which is dropped.
pub fn text_of<R: BufRead + Drop>(alloc: Global, lines: &mut Lines<R>) -> Result<Vec<u8>> {
    let mut text = Vec::new(alloc);
    while let Some(line) = lines.next() {
        let line = line?;
        if line.as_str() == "end" {
            break;
        }
        text.extend_from_slice(line.as_str().as_bytes())?;
        text.push(b'\n')?;
    }
    Ok(text)
}
