//! Terms with the numbers of the extended signature.

ghost use Rattle.std.specs.Prelude.{◌≡◌, ◌≤◌, ◌+◌, ◌^◌, IfOk, OnErr, map};
ghost use Rattle.open_evaluation.specs.Shifted.{shifted_number, shifted};

use std::alloc::Global;
use term_core::{OutOfMemory, SymId, Term, TermNode, Terms};

/// The term with the numbers that symbols have once `constants` constructors come after the
/// first `constructors`.
#[cycle(shift)]
pub(crate) fn shift_term(
    alloc: Global,
    constructors: u32,
    constants: u32,
    term: &Term,
) -> Result<Term, OutOfMemory>
    ensures { IfOk result (λ made. made ≡ shifted constructors constants term.now) }
{
    match &term.node {
        TermNode::Var(var) => Ok(Term::var(*var)),
        TermNode::App(sym, args) => {
            let number = shift_symbol(constructors, constants, *sym)?;
            let args = shift_terms(alloc, constructors, constants, args.as_slice())?;
            Ok(Term::app(number, args))
        }
    }
}

/// The terms in their order, with the new numbers.
#[cycle(shift)]
fn shift_terms(
    alloc: Global,
    constructors: u32,
    constants: u32,
    terms: &[Term],
) -> Result<Terms, OutOfMemory>
    ensures { IfOk result (λ made. made ≡ map (shifted constructors constants) terms.now) }
{
    let mut made = Terms::with_capacity(alloc, terms.len())?;
    for term in terms {
        made.push(shift_term(alloc, constructors, constants, term)?)?;
    }
    Ok(made)
}

/// The symbol's new number, if it is below 2^32.
fn shift_symbol(constructors: u32, constants: u32, sym: SymId) -> Result<SymId, OutOfMemory>
    ensures number { IfOk result (λ f. f.0 ≡ shifted_number constructors constants sym.0) }
    ensures past { OnErr result (2 ^ 32 ≤ sym.0 + constants) }
{
    if sym.0 < constructors {
        return Ok(sym);
    }
    match sym.0.checked_add(constants) {
        Some(number) => Ok(SymId(number)),
        None => Err(OutOfMemory),
    }
}
