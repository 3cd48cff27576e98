//! `ranked`: the candidates that come from a clause and its stuck clauses, best ones first.

ghost use Rattle.std.specs.Prelude.{All, IfOk};
ghost use Rattle.clause_core.specs.Clauses.{ClauseIsSorted};

use crate::candidates::{add_candidate, size_of};
use crate::generalizing::generalizations;
use crate::ranking::{add_ranked, into_clauses};
use crate::rewritten::rewritten;
use crate::sorted::sorted_ones;
use clause_core::Clause;
use spec_core::{Signature, Spec};
use std::alloc::Global;
use term_core::OutOfMemory;

/// The most stuck clauses that are looked at, and the most symbols of one.
const MOST_STUCK: usize = 16;

const MOST_SYMBOLS: u32 = 60;

/// The candidates: generalizations of the clause, the smallest of the stuck clauses, what these
/// become by the clause's equation, and the generalizations of all of them. Each comes once,
/// trimmed, and the best ones first.
pub fn ranked(
    alloc: Global,
    spec: &Spec,
    clause: &Clause,
    stuck: Vec<Clause>,
) -> Result<Vec<Clause>, OutOfMemory>
    ensures { IfOk result (λ found. All (ClauseIsSorted spec.now.sig) found.items) }
{
    let sig = &spec.sig;
    let mut found = generalizations(alloc, sig, clause)?;
    for one in smallest(alloc, stuck)? {
        add_stuck(alloc, sig, clause, one, &mut found)?;
    }
    let ordered = in_order(alloc, sig, &found)?;
    sorted_ones(alloc, sig, ordered)
}

/// The smallest of the stuck clauses, each once.
fn smallest(alloc: Global, stuck: Vec<Clause>) -> Result<Vec<Clause>, OutOfMemory> {
    let mut items = Vec::new(alloc);
    for clause in stuck {
        let size = size_of(&clause);
        if size <= MOST_SYMBOLS {
            add_ranked(size as usize, clause, &mut items)?;
        }
    }
    let mut made = into_clauses(alloc, items)?;
    made.truncate(MOST_STUCK);
    Ok(made)
}

/// Adds the stuck clause, its generalizations, and what it becomes by the clause's equation with
/// the generalizations of that.
fn add_stuck(
    alloc: Global,
    sig: &Signature,
    clause: &Clause,
    stuck: Clause,
    found: &mut Vec<Clause>,
) -> Result<(), OutOfMemory> {
    let becomes = rewritten(alloc, sig, &stuck, clause)?;
    add_with_generalizations(alloc, sig, stuck, found)?;
    for made in becomes {
        add_with_generalizations(alloc, sig, made, found)?;
    }
    Ok(())
}

fn add_with_generalizations(
    alloc: Global,
    sig: &Signature,
    clause: Clause,
    found: &mut Vec<Clause>,
) -> Result<(), OutOfMemory> {
    let mut further = generalizations(alloc, sig, &clause)?;
    found.push(clause)?;
    found.append(&mut further)?;
    Ok(())
}

/// The candidates among the clauses once these are trimmed, best ones first.
fn in_order(
    alloc: Global,
    sig: &Signature,
    clauses: &[Clause],
) -> Result<Vec<Clause>, OutOfMemory> {
    let mut items = Vec::new(alloc);
    for clause in clauses {
        add_candidate(alloc, sig, clause, &mut items)?;
    }
    into_clauses(alloc, items)
}
