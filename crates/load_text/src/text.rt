//! `load_text`: the generated text.

ghost use Rattle.std.specs.Prelude.{◌≡◌, ◌≤◌, ◌++◌, IfOk, OnOk};
ghost use Rattle.std.specs.Fmt.{decimal};
ghost use Rattle.spec_printing.specs.Printed.{printed, equation_printed, goal_line};
ghost use Rattle.load_text.specs.LoadRaw.{load_raw, load_goal, load_sides};
ghost use Rattle.load_text.specs.LoadSpec.{load_spec};
ghost use Rattle.load_text.specs.Accepted.{IsAcceptedAs};
ghost use Rattle.load_text.specs.Bytes.{enclosed, line_end};

use std::alloc::Global;
use term_core::OutOfMemory;

/// The text with goals 0 to `n - 1`. It is accepted: it derives declarations that stand for a
/// well sorted specification, which its own order admits.
pub fn load_text(alloc: Global, n: u32) -> Result<Vec<u8>, OutOfMemory>
    requires some { 1 ≤ n }
    requires few { n ≤ 200 }
    ensures text { IfOk result (λ r. r.items ≡ printed (load_raw n)) }
    ensures accepted { IfOk result (λ r. IsAcceptedAs r.items (load_spec n)) }
{
    generated(alloc, n)
}

fn generated(alloc: Global, n: u32) -> Result<Vec<u8>, OutOfMemory>
    ensures { IfOk result (λ r. r.items ≡ printed (load_raw n)) }
{
    let mut text = declarations(alloc)?;
    for number in 0..n {
        append_goal(alloc, number, &mut text)?;
    }
    Ok(text)
}

/// The lines before the goals.
fn declarations(alloc: Global) -> Result<Vec<u8>, OutOfMemory>
    ensures { IfOk result (λ r. r.items ≡ printed (load_raw 0)) }
{
    let mut text = Vec::from_slice(alloc, b"spike 1\nsort Nat = zero | succ(Nat)\n")?;
    text.extend_from_slice(b"fun plus(Nat, Nat) : Nat\nfun le(Nat, Nat) : Bool\n")?;
    text.extend_from_slice(b"rule plus(zero, y) = y\n")?;
    text.extend_from_slice(b"rule plus(succ(x), y) = succ(plus(x, y))\n")?;
    text.extend_from_slice(b"rule le(zero, y) = true\nrule le(succ(x), zero) = false\n")?;
    text.extend_from_slice(b"rule le(succ(x), succ(y)) = le(x, y)\n")?;
    Ok(text)
}

fn append_goal(alloc: Global, number: u32, text: &mut Vec<u8>) -> Result<(), OutOfMemory>
    ensures { OnOk result (text.new.items ≡ text.old.items ++ goal_line (load_goal number)) }
{
    text.extend_from_slice(b"goal g")?;
    append_number(alloc, number, text)?;
    text.extend_from_slice(b" : ")?;
    append_sides(number % 4, 1 + number % 20, text)?;
    append_end(number % 4, text)?;
    Ok(())
}

/// Ends the line of a goal of this kind.
fn append_end(kind: u32, text: &mut Vec<u8>) -> Result<(), OutOfMemory>
    ensures { OnOk result (text.new.items ≡ text.old.items ++ line_end kind) }
{
    text.extend_from_slice(if kind == 2 { b" =>\n" } else { b"\n" })?;
    Ok(())
}

fn append_number(alloc: Global, number: u32, text: &mut Vec<u8>) -> Result<(), OutOfMemory>
    ensures { OnOk result (text.new.items ≡ text.old.items ++ decimal number) }
{
    text.extend_from_slice(number.to_string(alloc)?.as_bytes())?;
    Ok(())
}

/// Appends the equation of a goal of this kind, with this many `succ`.
fn append_sides(kind: u32, height: u32, text: &mut Vec<u8>) -> Result<(), OutOfMemory>
    requires { height ≤ 20 }
    ensures { OnOk result (text.new.items ≡ text.old.items
        ++ equation_printed (load_sides kind height)) }
{
    match kind {
        0 => append_sum_of_successor(height, text),
        1 => append_changed_sum(height, text),
        2 => append_order(height, text),
        _ => append_sum_of_three(height, text),
    }
}

fn append_sum_of_successor(height: u32, text: &mut Vec<u8>) -> Result<(), OutOfMemory>
    ensures { OnOk result (text.new.items ≡ text.old.items
        ++ equation_printed (load_sides 0 height)) }
{
    text.extend_from_slice(b"plus(")?;
    append_successors(height, b"x", text)?;
    text.extend_from_slice(b", y) = ")?;
    append_successors(height, b"plus(x, y)", text)?;
    Ok(())
}

fn append_changed_sum(height: u32, text: &mut Vec<u8>) -> Result<(), OutOfMemory>
    ensures { OnOk result (text.new.items ≡ text.old.items
        ++ equation_printed (load_sides 1 height)) }
{
    text.extend_from_slice(b"plus(x, y) = plus(x, ")?;
    append_successors(height, b"y", text)?;
    text.extend_from_slice(b")")?;
    Ok(())
}

fn append_order(height: u32, text: &mut Vec<u8>) -> Result<(), OutOfMemory>
    requires { height ≤ 20 }
    ensures { OnOk result (text.new.items ≡ text.old.items
        ++ equation_printed (load_sides 2 height)) }
{
    text.extend_from_slice(b"le(")?;
    append_successors(height + 3, b"zero", text)?;
    text.extend_from_slice(b", x) = true")?;
    Ok(())
}

fn append_sum_of_three(height: u32, text: &mut Vec<u8>) -> Result<(), OutOfMemory>
    ensures { OnOk result (text.new.items ≡ text.old.items
        ++ equation_printed (load_sides 3 height)) }
{
    text.extend_from_slice(b"plus(plus(x, y), ")?;
    append_successors(height, b"z", text)?;
    text.extend_from_slice(b") = plus(x, plus(y, ")?;
    append_successors(height, b"z", text)?;
    text.extend_from_slice(b"))")?;
    Ok(())
}

/// Appends the text under `succ`, this many times.
fn append_successors(height: u32, inner: &[u8], text: &mut Vec<u8>) -> Result<(), OutOfMemory>
    ensures { OnOk result (text.new.items ≡ text.old.items ++ enclosed height inner.now) }
{
    if height == 0 {
        text.extend_from_slice(inner)?;
        return Ok(());
    }
    text.extend_from_slice(b"succ(")?;
    append_successors(height - 1, inner, text)?;
    text.push(b')')?;
    Ok(())
}
