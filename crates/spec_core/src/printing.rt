//! The text of a term.

ghost use Rattle.std.specs.Prelude.{◌≡◌, ◌++◌, OnOk, OnErr, slice_get};
ghost use Rattle.std.specs.Fmt.{decimal};
ghost use Rattle.term_core.specs.Tree.{trees_of};
ghost use Rattle.spec_core.specs.TermText.{term_text, others_text, variable_names, variable_text};
ghost use Rattle.spec_core.specs.TermText.{SymbolsAreInRange, AllSymbolsAreInRange};

use crate::records::VarInfo;
use crate::symbols::Signature;
use std::alloc::Global;
use term_core::{OutOfMemory, Term, TermNode, VarId, front};

/// Few terms have a longer text. The text of the others isn't moved while it grows.
const USUAL_ROOM: usize = 256;

impl Signature {
    /// Appends the term's text. A variable without an entry in `names` prints as `?n`.
    pub fn print(
        &self,
        alloc: Global,
        names: &[VarInfo],
        term: &Term,
        out: &mut Vec<u8>,
    ) -> Result<(), OutOfMemory>
        requires in_range { SymbolsAreInRange self.now term.now }
        ensures printed { OnOk result (out.new.items ≡
            out.old.items ++ term_text self.now (variable_names names.now) term.now) }
        ensures kept { OnErr result (out.new.items ≡ out.old.items) }
    {
        let mut text = Vec::with_capacity(alloc, USUAL_ROOM)?;
        self.append_term(names, term, &mut text)?;
        out.extend_from_slice(&text)?;
        Ok(())
    }

    #[cycle(append)]
    fn append_term(
        &self,
        names: &[VarInfo],
        term: &Term,
        text: &mut Vec<u8>,
    ) -> Result<(), OutOfMemory>
        requires in_range { SymbolsAreInRange self.now term.now }
        ensures { OnOk result (text.new.items ≡
            text.old.items ++ term_text self.now (variable_names names.now) term.now) }
    {
        match &term.node {
            TermNode::Var(var) => append_variable(names, *var, text),
            TermNode::App(sym, args) => {
                text.extend_from_slice(self.name(*sym))?;
                let Some((first, others)) = front(args.as_slice()) else {
                    return Ok(());
                };
                text.push(b'(')?;
                self.append_term(names, first, text)?;
                self.append_others(names, others, text)?;
                text.push(b')')?;
                Ok(())
            }
        }
    }

    /// Appends the terms, each after a comma and a space.
    #[cycle(append)]
    fn append_others(
        &self,
        names: &[VarInfo],
        terms: &[Term],
        text: &mut Vec<u8>,
    ) -> Result<(), OutOfMemory>
        requires in_range { AllSymbolsAreInRange self.now (trees_of terms.now) }
        ensures { OnOk result (text.new.items ≡ text.old.items ++
            others_text self.now (variable_names names.now) (trees_of terms.now)) }
    {
        let Some((first, others)) = front(terms) else {
            return Ok(());
        };
        text.push(b',')?;
        text.push(b' ')?;
        self.append_term(names, first, text)?;
        self.append_others(names, others, text)
    }
}

/// Appends the variable's name, or `?n` if it has none.
fn append_variable(names: &[VarInfo], var: VarId, text: &mut Vec<u8>) -> Result<(), OutOfMemory>
    ensures { OnOk result (text.new.items ≡
        text.old.items ++ variable_text (slice_get (variable_names names.now) var.0) var.0) }
{
    match names.get(var.0 as usize) {
        Some(info) => text.extend_from_slice(info.name.as_bytes())?,
        None => {
            text.push(b'?')?;
            append_decimal(var.0 as usize, text)?;
        }
    }
    Ok(())
}

/// Appends the number's decimal digits, and needs no memory beside the text.
pub fn append_decimal(number: usize, text: &mut Vec<u8>) -> Result<(), OutOfMemory>
    ensures { OnOk result (text.new.items ≡ text.old.items ++ decimal number) }
{
    if number >= 10 {
        append_decimal(number / 10, text)?;
    }
    text.push(b'0' + (number % 10) as u8)?;
    Ok(())
}
