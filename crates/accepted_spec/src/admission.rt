//! Lines of specifications that aren't admitted.

ghost use Rattle.std.specs.Prelude.{◌≡◌, ◌<◌, ◌++◌, IfOk, OnOk, length};
ghost use Rattle.std.specs.Fmt.{decimal};
ghost use Rattle.std.specs.List.{AllByRecursion, flat_map};
ghost use Rattle.spec_core.specs.TermText.{SymbolsAreInRange};
ghost use Rattle.accepted_spec.specs.AdmitLines as lines;
ghost use Rattle.accepted_spec.specs.AdmitLines.{IsAdmitLine, other_text, part_text, values_text};
ghost use Rattle.accepted_spec.specs.Ranges.{IsPrintableFault};
ghost use Rattle.accepted_spec.specs.Tellings.{Tells};

use crate::refusals::Refusal;
use spec_admit::AdmitFault;
use spec_core::Signature;
use std::alloc::Global;
use term_core::{OutOfMemory, SymId, Term, front};

/// The refusal of a specification whose first fault is this one.
pub fn admit_refusal(alloc: Global, sig: &Signature, fault: &AdmitFault) -> Refusal
    requires { IsPrintableFault sig.now fault.now }
    ensures { Tells (IsAdmitLine sig.now fault.now) result }
{
    match admit_line(alloc, sig, fault) {
        Ok(line) => Refusal::Line(line),
        Err(_) => Refusal::OutOfMemory,
    }
}

/// The line of a fault. Want of memory has none.
fn admit_line(alloc: Global, sig: &Signature, fault: &AdmitFault) -> Result<Vec<u8>, OutOfMemory>
    requires { IsPrintableFault sig.now fault.now }
    ensures { IfOk result (λ line. IsAdmitLine sig.now fault.now line.items) }
{
    match fault {
        AdmitFault::Linear { rule, name } => linear_line(alloc, *rule, name.as_bytes()),
        AdmitFault::Order { rule, part } => order_line(alloc, *rule, *part),
        AdmitFault::Overlap {
            first,
            second,
            values,
        } => overlap_line(alloc, sig, *first, *second, values.as_slice()),
        AdmitFault::Guards { rule } => guards_line(alloc, *rule),
        AdmitFault::Coverage { fun, values } => {
            coverage_line(alloc, sig, *fun, values.as_slice())
        }
        AdmitFault::OutOfMemory => Err(OutOfMemory),
    }
}

fn linear_line(alloc: Global, rule: u32, name: &[u8]) -> Result<Vec<u8>, OutOfMemory>
    ensures { IfOk result (λ line. line.items ≡ lines.linear_line rule name.now) }
{
    let mut line = Vec::from_slice(alloc, b"refused linear: rule ")?;
    append_number(alloc, rule, &mut line)?;
    line.extend_from_slice(b", variable ")?;
    line.extend_from_slice(name)?;
    line.push(b'\n')?;
    Ok(line)
}

fn order_line(alloc: Global, rule: u32, part: u32) -> Result<Vec<u8>, OutOfMemory>
    ensures { IfOk result (λ line. line.items ≡ lines.order_line rule part) }
{
    let mut line = Vec::from_slice(alloc, b"refused order: rule ")?;
    append_number(alloc, rule, &mut line)?;
    line.extend_from_slice(b", ")?;
    append_part(alloc, part, &mut line)?;
    line.push(b'\n')?;
    Ok(line)
}

fn overlap_line(
    alloc: Global,
    sig: &Signature,
    first: u32,
    second: u32,
    values: &[Term],
) -> Result<Vec<u8>, OutOfMemory>
    requires { AllByRecursion (SymbolsAreInRange sig.now) values.now }
    ensures { IfOk result
        (λ line. line.items ≡ lines.overlap_line sig.now first second values.now) }
{
    let mut line = Vec::from_slice(alloc, b"refused overlap: rules ")?;
    append_number(alloc, first, &mut line)?;
    line.extend_from_slice(b" and ")?;
    append_number(alloc, second, &mut line)?;
    line.extend_from_slice(b" at ")?;
    append_values(alloc, sig, values, &mut line)?;
    line.push(b'\n')?;
    Ok(line)
}

fn guards_line(alloc: Global, rule: u32) -> Result<Vec<u8>, OutOfMemory>
    ensures { IfOk result (λ line. line.items ≡ lines.guards_line rule) }
{
    let mut line = Vec::from_slice(alloc, b"refused guards: rule ")?;
    append_number(alloc, rule, &mut line)?;
    line.push(b'\n')?;
    Ok(line)
}

fn coverage_line(
    alloc: Global,
    sig: &Signature,
    fun: SymId,
    values: &[Term],
) -> Result<Vec<u8>, OutOfMemory>
    requires declared { fun.0 < length sig.now.table }
    requires in_range { AllByRecursion (SymbolsAreInRange sig.now) values.now }
    ensures { IfOk result (λ line. line.items ≡ lines.coverage_line sig.now fun.0 values.now) }
{
    let mut line = Vec::from_slice(alloc, b"refused coverage: ")?;
    line.extend_from_slice(sig.name(fun))?;
    line.extend_from_slice(b" at ")?;
    append_values(alloc, sig, values, &mut line)?;
    line.push(b'\n')?;
    Ok(line)
}

/// Appends `right side`, or `guard` and its number from 1.
fn append_part(alloc: Global, part: u32, text: &mut Vec<u8>) -> Result<(), OutOfMemory>
    ensures { OnOk result (text.new.items ≡ text.old.items ++ part_text part) }
{
    if part == 0 {
        text.extend_from_slice(b"right side")?;
    } else {
        text.extend_from_slice(b"guard ")?;
        append_number(alloc, part, text)?;
    }
    Ok(())
}

/// Appends the values in parentheses.
fn append_values(
    alloc: Global,
    sig: &Signature,
    values: &[Term],
    text: &mut Vec<u8>,
) -> Result<(), OutOfMemory>
    requires { AllByRecursion (SymbolsAreInRange sig.now) values.now }
    ensures { OnOk result (text.new.items ≡ text.old.items ++ values_text sig.now values.now) }
{
    let Some((first, others)) = front(values) else {
        text.extend_from_slice(b"()")?;
        return Ok(());
    };
    text.push(b'(')?;
    sig.print(alloc, &[], first, text)?;
    append_others(alloc, sig, others, text)?;
    text.push(b')')?;
    Ok(())
}

/// Appends the values, each after a comma and a space.
fn append_others(
    alloc: Global,
    sig: &Signature,
    values: &[Term],
    text: &mut Vec<u8>,
) -> Result<(), OutOfMemory>
    requires { AllByRecursion (SymbolsAreInRange sig.now) values.now }
    ensures { OnOk result
        (text.new.items ≡ text.old.items ++ flat_map (other_text sig.now) values.now) }
{
    for value in values {
        text.extend_from_slice(b", ")?;
        sig.print(alloc, &[], value, text)?;
    }
    Ok(())
}

fn append_number(alloc: Global, number: u32, text: &mut Vec<u8>) -> Result<(), OutOfMemory>
    ensures { OnOk result (text.new.items ≡ text.old.items ++ decimal number) }
{
    text.extend_from_slice(number.to_string(alloc)?.as_bytes())?;
    Ok(())
}
