//! The entries that name an equation by its number.

ghost use Rattle.std.specs.Prelude.{◌≡◌, IfOk, length};
ghost use Rattle.clause_core.specs.Limits.{IsWithin};
ghost use Rattle.routine_proof.specs.Entries.{matches};
ghost use Rattle.proof_search.specs.Taking.{IsAt, IsFound};
ghost use Rattle.proof_search.specs.Numbers.{step_of, equations_named, numbered};

use crate::at::{Asked, At, taken};
use clause_core::{Clause, Step};
use routine_proof::Move;
use std::alloc::Global;
use term_core::OutOfMemory;
use term_order::TermOrder;

/// The entries of the list whose steps name one equation, or one beside a given conclusion.
#[derive(Clone, Copy)]
pub(crate) enum Numbered {
    Trivial,
    /// By a premise, of this conclusion.
    Match(u16),
    Absurd,
    DecomposePremise,
    Clash,
    Solve,
    DecomposeConclusion,
}

impl Numbered {
    fn step(self, number: u16) -> Step
        ensures { result ≡ step_of self number }
    {
        match self {
            Numbered::Trivial => Step::Trivial(number),
            Numbered::Match(conclusion) => Step::Match(conclusion, number),
            Numbered::Absurd => Step::Absurd(number),
            Numbered::DecomposePremise => Step::Decompose(false, number),
            Numbered::Clash => Step::Clash(number),
            Numbered::Solve => Step::Solve(number),
            Numbered::DecomposeConclusion => Step::Decompose(true, number),
        }
    }

    /// How many equations of the clause the steps name.
    fn count(self, here: &Clause) -> u16
        requires { IsWithin here.now }
        ensures { result ≡ length (equations_named self here.now) }
    {
        match self {
            Numbered::Trivial | Numbered::Clash | Numbered::DecomposeConclusion => {
                here.conclusions.len() as u16
            }
            Numbered::Match(_) | Numbered::Absurd | Numbered::DecomposePremise | Numbered::Solve =>
                here.premises.len() as u16,
        }
    }
}

/// The first of the entry's steps that is defined.
pub(crate) fn first_numbered<O: TermOrder>(
    alloc: Global,
    order: &O,
    at: &At,
    entry: Numbered,
) -> Result<Option<Move>, OutOfMemory>
    requires { IsAt at.now }
    ensures { IfOk result (IsFound (O.above order.now) at.now (numbered entry at.now.here.now)) }
{
    let count = entry.count(at.here);
    for passed in 0..count {
        let step = entry.step(passed + 1);
        let found = taken(alloc, order, at, step, Asked::Nothing)?;
        if found.is_some() {
            return Ok(found);
        }
    }
    Ok(None)
}

/// The first match of a conclusion by a premise that is defined.
pub(crate) fn first_match<O: TermOrder>(
    alloc: Global,
    order: &O,
    at: &At,
) -> Result<Option<Move>, OutOfMemory>
    requires { IsAt at.now }
    ensures { IfOk result (IsFound (O.above order.now) at.now (matches at.now.here.now)) }
{
    let count = Numbered::Trivial.count(at.here);
    for passed in 0..count {
        let found = first_numbered(alloc, order, at, Numbered::Match(passed + 1))?;
        if found.is_some() {
            return Ok(found);
        }
    }
    Ok(None)
}
