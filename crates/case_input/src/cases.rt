//! Cases, tried line by line.

ghost use Rattle.spec_core.specs.WellSorted.{IsWellSorted};

use crate::specifications::{specification, text_of};
use anyhow::Result;
use spec_core::Spec;
use std::alloc::Global;
use std::io::{BufRead, BufReader};

/// What the cases of a program are about.
pub trait Case {
    /// Whether the case of these words comes out as it is written.
    fn holds(alloc: Global, spec: &Spec, words: &[&str]) -> Result<bool>
        requires fine { IsWellSorted spec.now };
}

/// Tries the cases of the input. It prints how many come out as they are written, and before that
/// each one that doesn't.
pub fn try_cases<C: Case>(rt: HostRuntime) -> Result<()> {
    let alloc = rt.alloc();
    let mut lines = BufReader::new(alloc, rt.reader())?.lines(alloc);
    let text = text_of(alloc, &mut lines)?;
    let spec = specification(alloc, &text)?;
    let mut right: u64 = 0;
    for line in lines {
        if is_right::<C>(rt, &spec, line?.as_str())? {
            right = right.saturating_add(1);
        }
    }
    println!(rt; "{right} cases as they are written")?;
    Ok(())
}

/// Whether the line has a case that comes out as it is written. One that doesn't is printed.
fn is_right<C: Case>(rt: HostRuntime, spec: &Spec, line: &str) -> Result<bool>
    requires fine { IsWellSorted spec.now }
{
    let alloc = rt.alloc();
    let words: Vec<&str> = line.split_whitespace().collect(alloc)?;
    match words.as_slice() {
        [] | ["#", ..] => Ok(false),
        words => {
            let right = C::holds(alloc, spec, words)?;
            if !right {
                println!(rt; "otherwise: {line}")?;
            }
            Ok(right)
        }
    }
}
