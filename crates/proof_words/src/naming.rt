//! `Naming`: names of symbols and of variables.

ghost use Rattle.std.specs.Prelude.{◌≡◌, ◌∷◌, [], None, IfOk, OnOk, slice_get};
ghost use Rattle.term_core.specs.Variables.{numbers_of};
ghost use Rattle.spec_core.specs.Sig.{names_of};
ghost use Rattle.spec_core.specs.TermText.{symbol_text, variable_names, variable_text};
ghost use Rattle.page_core.specs.Events.{text};
ghost use Rattle.page_core.specs.Pages.{after};
ghost use Rattle.proof_words.specs.GoalEvents.{names_at as names_of_variables};

use page_core::{Page, Style};
use spec_core::{Signature, VarInfo, append_decimal};
use std::alloc::Global;
use term_core::{Name, OutOfMemory, SymId, VarId};

/// What terms are written with: the names of symbols, and a name for each variable by its number.
#[derive(Clone, Copy)]
pub struct Naming<'a> {
    pub alloc: Global,
    pub sig: &'a Signature,
    pub names: &'a [Name],
}

/// Draws the variable's name, or `?n` if it has none.
pub fn draw_variable(
    page: &mut Page,
    naming: &Naming<'_>,
    style: Style,
    number: usize,
) -> Result<(), OutOfMemory>
    ensures { OnOk result (page.new ≡ after page.old
        (text style (variable_text (slice_get naming.now.names.now number) number) ∷ [])) }
{
    match naming.names.get(number) {
        Some(name) => page.text(style, name.as_bytes()),
        None => page.text(style, &unnamed(naming.alloc, number)?),
    }
}

/// What is written for a variable without a name: `?n`.
fn unnamed(alloc: Global, number: usize) -> Result<Vec<u8>, OutOfMemory>
    ensures { IfOk result (λ made. made.items ≡ variable_text None number) }
{
    let mut text = Vec::from_slice(alloc, b"?")?;
    append_decimal(number, &mut text)?;
    Ok(text)
}

/// The symbol's name, and nothing for a number beyond the table.
pub(crate) fn symbol_name<'a>(sig: &'a Signature, symbol: SymId) -> &'a [u8]
    ensures { result.now ≡ symbol_text (slice_get (names_of sig.now) symbol.0) }
{
    if symbol.0 < sig.symbols() {
        sig.name(symbol)
    } else {
        &[]
    }
}

/// The names with which variables are declared.
pub(crate) fn own_names(alloc: Global, vars: &[VarInfo]) -> Result<Vec<Name>, OutOfMemory>
    ensures { IfOk result (λ names. names.items ≡ variable_names vars.now) }
{
    let mut names = Vec::with_capacity(alloc, vars.len())?;
    for var in vars {
        names.push(var.name.copy(alloc)?)?;
    }
    Ok(names)
}

/// The names of these variables.
pub(crate) fn names_at(
    alloc: Global,
    vars: &[VarInfo],
    numbers: &[VarId],
) -> Result<Vec<Name>, OutOfMemory>
    ensures { IfOk result (λ names.
        names.items ≡ names_of_variables vars.now (numbers_of numbers.now)) }
{
    let mut names = Vec::with_capacity(alloc, numbers.len())?;
    for number in numbers {
        names.push(name_at(alloc, vars, number.0 as usize)?)?;
    }
    Ok(names)
}

/// The variable's name, or `?n` if it has none.
fn name_at(alloc: Global, vars: &[VarInfo], number: usize) -> Result<Name, OutOfMemory>
    ensures { IfOk result (λ name.
        name ≡ variable_text (slice_get (variable_names vars.now) number) number) }
{
    match vars.get(number) {
        Some(var) => var.name.copy(alloc),
        None => Ok(Name::from_bytes(unnamed(alloc, number)?)),
    }
}
