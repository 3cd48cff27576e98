//! What is asked of clauses in a case.
use crate::cases::substitution;
use crate::clause_signs::{clause, is};
use crate::sizes;
use anyhow::{Result, bail};
use clause_core::{Clause, Relation, compare, instance, of_goal, tidy, within};
use path_order::Lpo;
use spec_core::{Goal, VarInfo};
use std::alloc::Global;
use term_core::{Name, Seq};

/// Whether the case comes out as it is written.
pub fn holds(alloc: Global, words: &[&str]) -> Result<bool> {
    match words {
        ["tidy", signs, wanted] => is_tidied(alloc, signs, wanted),
        ["goal", signs, wanted] => is_clause_of_goal(alloc, signs, wanted),
        ["instance", entries, signs, wanted] => is_instance(alloc, entries, signs, wanted),
        ["within", "clause", signs, answer] => {
            Ok(answer_of(within(&clause(alloc, signs)?)) == *answer)
        }
        ["within", kind, numbers @ .., answer] => {
            Ok(answer_of(within(&sizes::clause(alloc, kind, numbers)?)) == *answer)
        }
        ["compare", one, other, relation] => Ok(relation_of(alloc, one, other)? == *relation),
        _ => bail!("this is no case"),
    }
}

fn answer_of(answer: bool) -> &'static str {
    if answer { "yes" } else { "no" }
}

/// Whether this becomes of the clause once it is tidied.
fn is_tidied(alloc: Global, signs: &str, wanted: &str) -> Result<bool> {
    is(alloc, &tidy(alloc, clause(alloc, signs)?)?, wanted)
}

/// Whether this is the clause of the goal that is written as a clause.
fn is_clause_of_goal(alloc: Global, signs: &str, wanted: &str) -> Result<bool> {
    is(alloc, &of_goal(alloc, &goal(alloc, signs)?)?, wanted)
}

fn goal(alloc: Global, signs: &str) -> Result<Goal> {
    let Clause {
        ctx,
        premises,
        conclusions,
    } = clause(alloc, signs)?;
    let mut vars = Seq::new(alloc);
    for (letter, sort) in b"uvwxyz".iter().zip(ctx.as_slice()) {
        vars.push(VarInfo {
            name: Name::of(alloc, &[*letter])?,
            sort: *sort,
        })?;
    }
    Ok(Goal {
        name: Name::of(alloc, b"goal")?,
        vars,
        premises,
        conclusions,
    })
}

/// Whether this becomes of the clause by the entries, over the variables of what is wanted.
fn is_instance(alloc: Global, entries: &str, signs: &str, wanted: &str) -> Result<bool> {
    let entries = substitution(alloc, entries)?;
    let ctx = clause(alloc, wanted)?.ctx;
    let made = instance(alloc, &clause(alloc, signs)?, &entries, ctx.as_slice())?;
    is(alloc, &made, wanted)
}

/// How the first clause compares with the second one in the path ordering.
fn relation_of(alloc: Global, one: &str, other: &str) -> Result<&'static str> {
    let one = clause(alloc, one)?;
    let other = clause(alloc, other)?;
    Ok(match compared(alloc, &one, &other)? {
        Relation::Less => "less",
        Relation::Same => "same",
        Relation::Neither => "neither",
    })
}

/// Compares clauses that are within the limits of a proof's clauses, and so small enough.
fn compared(alloc: Global, one: &Clause, other: &Clause) -> Result<Relation> {
    if !within(one) || !within(other) {
        bail!("the clauses are too large to compare");
    }
    Ok(compare(alloc, &Lpo::by_number(), one, other)?)
}
