//! `shift`: a term with the same number added to each variable.

ghost use Rattle.std.specs.Prelude.{◌≡◌, ◌≤◌, ◌+◌, ◌^◌, ℕ, map, Err, IfOk, OnOk};
ghost use Rattle.term_core.specs.Tree.{trees_of};
ghost use Rattle.unifier.specs.Shifting.{shifted, HasTooLarge, HaveTooLarge};
ghost use Rattle.unifier.specs.declared.shifting.ShiftError.TheVariants.{OutOfMemory as no_memory};

use std::alloc::Global;
use std::error::Error;
use std::fmt;
use term_core::{OutOfMemory, Term, TermNode, Terms, VarId};

/// Why a term has no copy with greater variable numbers.
#[derive(Clone, Copy, Debug, PartialEq, Eq)]
pub enum ShiftError {
    /// Some variable's number would pass the last one.
    TooLarge,
    OutOfMemory,
}

impl fmt::Display for ShiftError {
    ghost use Rattle.unifier.specs.ErrorText.{shift_error_text};

    ghost output = { shift_error_text };

    fn fmt<W: fmt::Write>(&self, f: &mut fmt::Formatter<W>) -> fmt::Result {
        f.write_str(match self {
            ShiftError::TooLarge => "a variable's number is too large",
            ShiftError::OutOfMemory => "out of memory",
        })
    }
}

impl Error for ShiftError {}

impl From<OutOfMemory> for ShiftError {
    ghost from_gives = { λ _ e. e ≡ no_memory };

    fn from(_error: OutOfMemory) -> ShiftError {
        ShiftError::OutOfMemory
    }
}

/// The term with `by` added to the number of each variable: it has no variable in common with a
/// term whose variables have numbers below `by`. `TooLarge` comes if a number would pass
/// 4,294,967,295.
#[cycle(shift)]
pub fn shift(alloc: Global, term: &Term, by: u32) -> Result<Term, ShiftError>
    ensures shifted { IfOk result (λ made. made ≡ shifted by term.now) }
    ensures within { OnOk result (HasTooLarge by term.now → ⊥) }
    ensures too_large { result ≡ Err ShiftError.TooLarge → HasTooLarge by term.now }
{
    match &term.node {
        TermNode::Var(var) => match var.0.checked_add(by) {
            Some(number) => Ok(Term::var(VarId(number))),
            None => Err(ShiftError::TooLarge),
        },
        TermNode::App(sym, args) => Ok(Term::app(*sym, shift_all(alloc, args.as_slice(), by)?)),
    }
}

/// The terms in their order, each with `by` added to the number of each variable.
#[cycle(shift)]
fn shift_all(alloc: Global, terms: &[Term], by: u32) -> Result<Terms, ShiftError>
    ensures shifted { IfOk result (λ made. made ≡ map (shifted by) terms.now) }
    ensures within { OnOk result (HaveTooLarge by (trees_of terms.now) → ⊥) }
    ensures too_large { result ≡ Err ShiftError.TooLarge → HaveTooLarge by (trees_of terms.now) }
{
    let mut made = Terms::with_capacity(alloc, terms.len())?;
    for term in terms {
        made.push(shift(alloc, term, by)?)?;
    }
    Ok(made)
}
