//! Clauses that differ in one side or in all, compared.

ghost use Rattle.std.specs.Prelude.{IfOk};
ghost use Rattle.clause_core.specs.Comparing.{SidesAreTestable};

use anyhow::{Result, bail};
use clause_core::{Clause, Relation, compare, within};
use path_order::Lpo;
use spec_core::Equation;
use std::alloc::Global;
use term_core::{Seq, SymId, Term, Terms};

/// How many symbols are above the constant of a side.
const LEVELS: u32 = 12;

/// The symbol of the towers. Its number is greater than those of the constants.
const TOWER: SymId = SymId(1000);

/// The constant of a side that is above all others.
const GREATEST: u32 = 999;

/// Whether a clause of `count` equations is greater than one that differs in all sides or in one,
/// as 1 or 0. The answer is computed `times` times.
pub fn compared(alloc: Global, count: u32, all_differ: bool, times: u32) -> Result<u64> {
    let sides = count.saturating_mul(2);
    let others = if all_differ { sides } else { 0 };
    let first = clause(alloc, count, 0, GREATEST)?;
    let second = clause(alloc, count, others, others.saturating_add(sides))?;
    let mut is_less = false;
    for _time in 0..times {
        is_less = compare(alloc, &Lpo::by_number(), &first, &second)? == Relation::Less;
    }
    Ok(u64::from(is_less))
}

/// A clause of `count` conclusions. The last one has the constant `last` on its right side, and the
/// constants of the others count from `start`.
fn clause(alloc: Global, count: u32, start: u32, last: u32) -> Result<Clause>
    ensures { IfOk result (λ clause. SidesAreTestable clause) }
{
    let mut conclusions = Seq::new(alloc);
    let mut number = start;
    for _equation in 1..count {
        let left = tower(alloc, number)?;
        let right = tower(alloc, number.saturating_add(1))?;
        conclusions.push(Equation { left, right })?;
        number = number.saturating_add(2);
    }
    let left = tower(alloc, number)?;
    let right = tower(alloc, last)?;
    conclusions.push(Equation { left, right })?;
    let clause = Clause {
        ctx: Seq::new(alloc),
        premises: Seq::new(alloc),
        conclusions,
    };
    if !within(&clause) {
        bail!("the clause passes a limit");
    }
    Ok(clause)
}

/// A constant under [`LEVELS`] times the symbol of the towers.
fn tower(alloc: Global, constant: u32) -> Result<Term> {
    let mut term = Term::app(SymId(constant), Terms::new(alloc));
    for _level in 0..LEVELS {
        let mut args = Terms::new(alloc);
        args.push(term)?;
        term = Term::app(TOWER, args);
    }
    Ok(term)
}
