//! Clauses without what a lemma needn't say.

use clause_core::{Clause, MOST_LEVELS, copy_equations, is_identity};
use spec_core::{Equation, Signature};
use std::alloc::Global;
use term_core::{OutOfMemory, Seq, Term, TermNode};

/// Both sides of an equation.
#[derive(Clone, Copy)]
struct Sides<'a> {
    left: &'a Term,
    right: &'a Term,
}

/// The clause without premises that are identities, and without the constructors around the only
/// arguments that differ in its only conclusion. It follows from what is left.
pub(crate) fn trimmed(
    alloc: Global,
    sig: &Signature,
    clause: &Clause,
) -> Result<Clause, OutOfMemory> {
    let conclusions = match clause.conclusions.as_slice() {
        [only] => stripped(alloc, sig, only)?,
        several => copy_equations(alloc, several)?,
    };
    Ok(Clause {
        ctx: Seq::from_vec(clause.ctx.as_slice().to_vec(alloc)?),
        premises: needed_premises(alloc, clause.premises.as_slice())?,
        conclusions: Seq::from_vec(conclusions),
    })
}

/// The premises that aren't identities.
fn needed_premises(alloc: Global, premises: &[Equation]) -> Result<Seq<Equation>, OutOfMemory> {
    let mut made = copy_equations(alloc, premises)?;
    made.retain(|premise| !is_identity(premise));
    Ok(Seq::from_vec(made))
}

/// What is left of the equation once equal constructors are taken off as long as one pair of
/// arguments differs.
fn stripped(
    alloc: Global,
    sig: &Signature,
    equation: &Equation,
) -> Result<Vec<Equation>, OutOfMemory> {
    let mut sides = Sides {
        left: &equation.left,
        right: &equation.right,
    };
    for _ in 0..MOST_LEVELS {
        let Some(next) = inner(sig, sides) else {
            break;
        };
        sides = next;
    }
    let mut made = Vec::new(alloc);
    made.push(Equation {
        left: sides.left.copy(alloc)?,
        right: sides.right.copy(alloc)?,
    })?;
    Ok(made)
}

/// The only arguments that differ, if one constructor is at both roots.
fn inner<'a>(sig: &Signature, sides: Sides<'a>) -> Option<Sides<'a>> {
    let left = sides.left;
    let right = sides.right;
    match (&left.node, &right.node) {
        (TermNode::App(sym, lefts), TermNode::App(other, rights)) => {
            if sym != other || sym.0 >= sig.constructors() {
                return None;
            }
            only_differing(lefts.as_slice(), rights.as_slice())
        }
        _ => None,
    }
}

/// The terms at the only place at which the lists differ.
fn only_differing<'a>(lefts: &'a [Term], rights: &'a [Term]) -> Option<Sides<'a>> {
    let mut found = None;
    for (left, right) in lefts.iter().zip(rights) {
        if !left.same(right) {
            if found.is_some() {
                return None;
            }
            found = Some(Sides { left, right });
        }
    }
    found
}
