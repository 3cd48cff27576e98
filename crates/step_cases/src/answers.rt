//! What steps answer: `less CLAUSE`, `same CLAUSE` or `neither CLAUSE` for each child and `refers
//! NUMBER RELATION` for each reference, `-` if there are none, or the reason as `no-such-place`.
use crate::terms::clause;
use anyhow::{Result, bail};
use clause_core::{Child, Children, Clause, Reference, Relation, Why};
use inference_rules::StepError;
use spec_core::{Equation, Signature};
use std::alloc::Global;
use term_core::SortId;

/// Whether this is the answer of these words.
pub fn is_answer(
    alloc: Global,
    sig: &Signature,
    found: Result<Children, StepError>,
    words: &[&str],
) -> Result<bool> {
    match found {
        Err(StepError::Why(why)) => Ok(matches!(words, [reason] if *reason == reason_of(why))),
        Err(StepError::OutOfMemory) => bail!("out of memory"),
        Ok(made) => {
            let count = 2 * made.clauses.len().min(100);
            let (children, references) = match words {
                ["-"] => words.split_at(1),
                _ => words.split_at(count.min(words.len())),
            };
            Ok(
                are_children(alloc, sig, made.clauses.as_slice(), children)?
                    && are_references(made.refs.as_slice(), references)?,
            )
        }
    }
}

fn reason_of(why: Why) -> &'static str {
    match why {
        Why::NoSuchNode => "no-such-node",
        Why::NoSuchPlace => "no-such-place",
        Why::NoSuchRule => "no-such-rule",
        Why::DoesNotFit => "does-not-fit",
        Why::NotProvedBefore => "not-proved-before",
        Why::Sort => "sort",
        Why::NotCovering => "not-covering",
        Why::Limit => "limit",
    }
}

fn relation_of(relation: Relation) -> &'static str {
    match relation {
        Relation::Less => "less",
        Relation::Same => "same",
        Relation::Neither => "neither",
    }
}

/// Whether these are the children, each with its relation before its clause.
fn are_children(alloc: Global, sig: &Signature, found: &[Child], words: &[&str]) -> Result<bool> {
    if let ["-"] = words {
        return Ok(found.is_empty());
    }
    if found.len() > 100 || words.len() != 2 * found.len() {
        return Ok(false);
    }
    for (number, child) in found.iter().enumerate() {
        let wanted = clause(alloc, sig, words[2 * number + 1])?;
        if relation_of(child.relation) != words[2 * number] || !same(&child.clause, &wanted) {
            return Ok(false);
        }
    }
    Ok(true)
}

/// Whether these are the references, of which there is one at most.
fn are_references(found: &[Reference], words: &[&str]) -> Result<bool> {
    match (found, words) {
        ([], []) => Ok(true),
        ([reference], ["refers", node, relation]) => Ok(
            reference.node == crate::steps::number(node)?
                && relation_of(reference.relation) == *relation,
        ),
        ([], _) => Ok(false),
        ([_], _) => Ok(false),
        _ => bail!("there are several references"),
    }
}

/// Whether the clauses are the same, with the sorts of their variables.
fn same(one: &Clause, other: &Clause) -> bool {
    same_sorts(one.ctx.as_slice(), other.ctx.as_slice())
        && same_equations(one.premises.as_slice(), other.premises.as_slice())
        && same_equations(one.conclusions.as_slice(), other.conclusions.as_slice())
}

fn same_sorts(found: &[SortId], wanted: &[SortId]) -> bool {
    found.len() == wanted.len() && found.iter().zip(wanted).all(|(one, other)| *one == *other)
}

fn same_equations(found: &[Equation], wanted: &[Equation]) -> bool {
    found.len() == wanted.len()
        && found.iter().zip(wanted).all(|(one, other)| one.left.same(&other.left)
            && one.right.same(&other.right))
}
