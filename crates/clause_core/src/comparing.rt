//! `compare`: sides cancel in pairs, then the test on what is left.

ghost use Rattle.std.specs.Prelude.{◌≡◌, List, ◌++◌, ◌↔◌, Some, IfOk, OnOk, IsTrue, MatchOption};
ghost use Rattle.std.specs.Prelude.{Contains, slice_get};
ghost use Rattle.term_core.specs.Tree.{Tree};
ghost use Rattle.term_core.specs.References.{terms_of};
ghost use Rattle.clause_core.specs.Clauses.{sides_of, sides as sides_of_clause};
ghost use Rattle.clause_core.specs.Multisets.{AreRests, HasGreater, EachHasGreater};
ghost use Rattle.clause_core.specs.Comparing.{MultisetsCompare, Compares, IsTestable, AreTestable};
ghost use Rattle.clause_core.specs.Comparing.{SidesAreTestable};

use crate::clauses::{Clause, Relation};
use spec_core::Equation;
use std::alloc::Global;
use term_core::{OutOfMemory, Term};
use term_order::TermOrder;

/// Compares the sides of `c` with those of `d` as multisets (Dershowitz and Manna, 1979): `Less`
/// means that those of `d` are less. The number of comparisons of sides is that of the sides of
/// `c` times that of the sides of `d` at most, once for equality and once by the order.
pub fn compare<O: TermOrder>(
    alloc: Global,
    order: &O,
    c: &Clause,
    d: &Clause,
) -> Result<Relation, OutOfMemory>
    requires first { SidesAreTestable c.now }
    requires second { SidesAreTestable d.now }
    ensures { IfOk result (Compares (O.above order.now) c.now d.now) }
{
    let others = sides(alloc, d)?;
    let rests = cancel(alloc, sides(alloc, c)?, &others)?;
    Ok(relation(order, &rests.first, &rests.second))
}

/// How two lists of terms compare that have these rests.
fn relation<O: TermOrder>(order: &O, first: &[&Term], second: &[&Term]) -> Relation
    requires first { AreTestable (terms_of first.now) }
    requires second { AreTestable (terms_of second.now) }
    ensures { (xs ys : List Tree) → AreRests xs ys (terms_of first.now) (terms_of second.now) →
        MultisetsCompare (O.above order.now) xs ys result }
{
    if first.is_empty() {
        if second.is_empty() {
            return Relation::Same;
        }
        return Relation::Neither;
    }
    if each_has_greater(order, first, second) {
        return Relation::Less;
    }
    Relation::Neither
}

/// The sides of the clause, premises before conclusions and the left one before the right one.
fn sides<'a>(alloc: Global, clause: &'a Clause) -> Result<Vec<&'a Term>, OutOfMemory>
    ensures { IfOk result (λ made. terms_of made.items ≡ sides_of_clause clause.now) }
{
    let mut made = Vec::new(alloc);
    push_sides(&mut made, clause.premises.as_slice())?;
    push_sides(&mut made, clause.conclusions.as_slice())?;
    Ok(made)
}

/// Adds the sides of the equations. If memory runs out, some of them may have been added.
fn push_sides<'a>(made: &mut Vec<&'a Term>, equations: &'a [Equation]) -> Result<(), OutOfMemory>
    ensures { OnOk result
        (terms_of made.new.items ≡ terms_of made.old.items ++ sides_of equations.now) }
{
    for equation in equations {
        made.push(&equation.left)?;
        made.push(&equation.right)?;
    }
    Ok(())
}

/// What is left of two lists of terms once their common members cancel.
#[derive(Drop)]
struct Rests<'a> {
    first: Vec<&'a Term>,
    second: Vec<&'a Term>,
}

/// Cancels the common members of two lists of terms, in pairs.
fn cancel<'a>(
    alloc: Global,
    terms: Vec<&'a Term>,
    others: &[&'a Term],
) -> Result<Rests<'a>, OutOfMemory>
    ensures { IfOk result (λ rests. AreRests (terms_of terms.entry.items) (terms_of others.now)
        (terms_of rests.first.items) (terms_of rests.second.items)) }
{
    let mut first = terms;
    let mut second = Vec::new(alloc);
    for other in others {
        match find(&first, other) {
            Some(place) => {
                first.swap_remove(place);
            }
            None => second.push(*other)?,
        }
    }
    Ok(Rests { first, second })
}

/// A place at which the list has the term.
fn find(terms: &[&Term], term: &Term) -> Option<usize>
    ensures { MatchOption result (Contains (terms_of terms.now) term.now → ⊥)
        (λ place. slice_get (terms_of terms.now) place ≡ Some term.now) }
{
    for (place, other) in terms.iter().enumerate() {
        if other.same(term) {
            return Some(place);
        }
    }
    None
}

/// Whether each of the others has a greater one among the terms.
fn each_has_greater<O: TermOrder>(order: &O, terms: &[&Term], others: &[&Term]) -> bool
    requires terms { AreTestable (terms_of terms.now) }
    requires others { AreTestable (terms_of others.now) }
    ensures { IsTrue result ↔
        EachHasGreater (O.above order.now) (terms_of terms.now) (terms_of others.now) }
{
    for other in others {
        if !has_greater(order, terms, other) {
            return false;
        }
    }
    true
}

/// Whether some of the terms is greater than the other one.
fn has_greater<O: TermOrder>(order: &O, terms: &[&Term], other: &Term) -> bool
    requires terms { AreTestable (terms_of terms.now) }
    requires other { IsTestable other.now }
    ensures { IsTrue result ↔ HasGreater (O.above order.now) (terms_of terms.now) other.now }
{
    for term in terms {
        if order.greater(term, other) {
            return true;
        }
    }
    false
}
