//! The code of each symbol's application to variables.

ghost use Rattle.std.specs.Prelude.{◌≡◌, ◌≤◌, IfOk, length};
ghost use Rattle.spec_core.specs.WellSorted.{IsWellSorted};
ghost use Rattle.sample_values.specs.Evaluators.{AreSides, applied};

use bank_machine::Machine;
use spec_core::Spec;
use std::alloc::Global;
use term_core::{OutOfMemory, SymId, Term, Terms, VarId};

/// Compiles the application of each symbol to variables, and gives the places of the code.
pub(crate) fn compile_symbols<'a>(
    alloc: Global,
    spec: &'a Spec,
) -> Result<(Machine<'a>, Vec<usize>), OutOfMemory>
    requires { IsWellSorted spec.now }
    ensures spec { IfOk result (λ made. made.0.spec ≡ spec.now) }
    ensures sides { IfOk result (λ made. AreSides made.0 made.1.items) }
    ensures count { IfOk result (λ made. length made.1.items ≡ length spec.now.sig.table) }
{
    let mut machine = Machine::new(alloc, spec)?;
    let mut sides = Vec::new(alloc);
    for number in 0..spec.sig.symbols() {
        let count = spec.sig.info(SymId(number)).args.len();
        let term = applied(alloc, SymId(number), count)?;
        let (with_term, side) = machine.with_term(alloc, &term, count)?;
        machine = with_term;
        sides.push(side)?;
    }
    Ok((machine, sides))
}

/// The symbol, applied to this many variables.
fn applied(alloc: Global, sym: SymId, count: usize) -> Result<Term, OutOfMemory>
    requires { count ≤ 8 }
    ensures { IfOk result (λ made. made ≡ applied sym.0 count) }
{
    let mut args = Vec::with_capacity(alloc, count)?;
    for number in 0..count {
        args.push(Term::var(VarId(number as u32)))?;
    }
    Ok(Term::app(sym, Terms::from_vec(alloc, args)?))
}
