//! `call_around`: the call in which a variable stands.

use clause_core::Clause;
use spec_core::{Equation, Signature};
use term_core::{SymId, Term, TermNode, VarId};

/// An argument of a function.
#[derive(Clone, Copy, PartialEq, Eq)]
pub struct Call {
    pub function: SymId,
    pub argument: usize,
}

/// The innermost call around the variable's first occurrence in a call.
pub fn call_around(sig: &Signature, clause: &Clause, variable: VarId) -> Option<Call> {
    let found = call_in_equations(sig, clause.premises.as_slice(), variable);
    if found.is_some() {
        return found;
    }
    call_in_equations(sig, clause.conclusions.as_slice(), variable)
}

fn call_in_equations(sig: &Signature, equations: &[Equation], variable: VarId) -> Option<Call> {
    for equation in equations {
        let found = call_in(sig, &equation.left, variable, None);
        if found.is_some() {
            return found;
        }
        let found = call_in(sig, &equation.right, variable, None);
        if found.is_some() {
            return found;
        }
    }
    None
}

#[cycle(calls)]
fn call_in(sig: &Signature, term: &Term, variable: VarId, around: Option<Call>) -> Option<Call> {
    match &term.node {
        TermNode::Var(own) => { if *own == variable { around } else { None } }
        TermNode::App(symbol, arguments) => {
            call_in_arguments(sig, *symbol, arguments.as_slice(), variable, around)
        }
    }
}

#[cycle(calls)]
fn call_in_arguments(
    sig: &Signature,
    symbol: SymId,
    arguments: &[Term],
    variable: VarId,
    around: Option<Call>,
) -> Option<Call> {
    for (argument, term) in arguments.iter().enumerate() {
        let inner = inner_call(sig, symbol, argument, around);
        let found = call_in(sig, term, variable, inner);
        if found.is_some() {
            return found;
        }
    }
    None
}

/// The innermost call around an argument of this symbol, where this one is around the symbol.
fn inner_call(
    sig: &Signature,
    symbol: SymId,
    argument: usize,
    around: Option<Call>,
) -> Option<Call> {
    if symbol.0 < sig.constructors() {
        return around;
    }
    Some(Call {
        function: symbol,
        argument,
    })
}
