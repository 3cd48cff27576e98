//! What `check` and `upgrade` write.

ghost use Rattle.std.specs.Prelude.{◌≡◌, ◌≤◌, ◌++◌, IfOk, OnOk};
ghost use Rattle.std.specs.Fmt.{decimal};
ghost use Rattle.spec_grammar.specs.KeepsLimits.{KeepsLimits};
ghost use Rattle.spike_cli.specs.Checks.{accepted_line as line_of_accepted};
ghost use Rattle.spike_cli.specs.Checks.{check_text as text_of_check, constructor_count, IsCheck};
ghost use Rattle.file_replies.specs.Stops.{Finishes};
ghost use Rattle.spike_cli.specs.Upgrades.{IsUpgrade};
ghost use Rattle.spec_printing.specs.Printed.{printed};
ghost use Rattle.spec_printing.specs.Upgraded.{upgraded};

use file_replies::{Status, Stop};
use io_core::{Sink, write_all};
use spec_printing::{print, upgrade as print_upgraded};
use spec_syntax::{RawSort, RawSpec};
use std::alloc::Global;
use term_core::OutOfMemory;

/// Writes that the specification is accepted, or its printed form.
pub fn check<S: Sink>(
    alloc: Global,
    raw: &RawSpec,
    printed: bool,
    out: &mut S,
) -> Result<Status, Stop>
    requires { KeepsLimits raw.now }
    ensures finishes { Finishes (S.written out.old) (S.written out.new)
        (S.faults out.old) (S.faults out.new)
        (IsCheck printed raw.now) (λ text. text ≡ text_of_check printed raw.now) result }
    ensures writes { S.faults out.old ≤ S.faults out.new }
{
    let text = check_text(alloc, raw, printed)?;
    write_all(out, alloc, &text)?;
    Ok(Status::Done)
}

/// Writes the printed form of the specification in format 2.
pub fn upgrade<S: Sink>(alloc: Global, raw: &RawSpec, out: &mut S) -> Result<Status, Stop>
    ensures finishes { Finishes (S.written out.old) (S.written out.new)
        (S.faults out.old) (S.faults out.new)
        (IsUpgrade raw.now) (λ text. text ≡ printed (upgraded raw.now)) result }
    ensures writes { S.faults out.old ≤ S.faults out.new }
{
    let text = print_upgraded(alloc, raw)?;
    write_all(out, alloc, &text)?;
    Ok(Status::Done)
}

/// What is written of an accepted specification.
fn check_text(alloc: Global, raw: &RawSpec, printed: bool) -> Result<Vec<u8>, OutOfMemory>
    requires { KeepsLimits raw.now }
    ensures { IfOk result (λ text. text.items ≡ text_of_check printed raw.now) }
{
    if printed {
        print(alloc, raw)
    } else {
        accepted_line(alloc, raw)
    }
}

/// How much the text declares.
fn accepted_line(alloc: Global, raw: &RawSpec) -> Result<Vec<u8>, OutOfMemory>
    requires { KeepsLimits raw.now }
    ensures { IfOk result (λ text. text.items ≡ line_of_accepted raw.now) }
{
    let mut text = Vec::from_slice(alloc, b"accepted")?;
    append_count(alloc, b" sorts ", raw.sorts.len(), &mut text)?;
    let constructors = constructors_of(raw.sorts.as_slice());
    append_count(alloc, b" constructors ", constructors, &mut text)?;
    append_count(alloc, b" functions ", raw.funs.len(), &mut text)?;
    append_count(alloc, b" rules ", raw.rules.len(), &mut text)?;
    append_count(alloc, b" goals ", raw.goals.len(), &mut text)?;
    text.push(b'\n')?;
    Ok(text)
}

/// How many constructors the sorts have.
fn constructors_of(sorts: &[RawSort]) -> usize
    requires { constructor_count sorts.now ≤ 1000 }
    ensures { result ≡ constructor_count sorts.now }
{
    sorts.iter().map(|sort| sort.constructors.len()).sum()
}

/// Appends what is counted, and the number.
fn append_count(
    alloc: Global,
    counted: &[u8],
    count: usize,
    text: &mut Vec<u8>,
) -> Result<(), OutOfMemory>
    ensures { OnOk result (text.new.items ≡ text.old.items ++ (counted.now ++ decimal count)) }
{
    text.extend_from_slice(counted)?;
    text.extend_from_slice(count.to_string(alloc)?.as_bytes())?;
    Ok(())
}
