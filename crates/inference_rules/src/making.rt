//! The end of each row: children are tidied, related and counted, within the limits.

ghost use Rattle.std.specs.Prelude.{◌≡◌, ◌↔◌, ℕ, List, Ok, [], ◌∷◌, IfOk, IsTrue, length, map};
ghost use Rattle.std.specs.List.{AllByRecursion, AllZip};
ghost use Rattle.term_core.specs.Tree.{Tree};
ghost use Rattle.clause_core.specs.declared.clauses.Clause.{Clause as ClauseOf};
ghost use Rattle.clause_core.specs.declared.answers.Child.{Child as ChildOf};
ghost use Rattle.clause_core.specs.Limits.{IsWithin};
ghost use Rattle.clause_core.specs.Comparing.{IsTestable, SidesAreTestable};
ghost use Rattle.clause_core.specs.Places.{TermAt, holding};
ghost use Rattle.clause_core.specs.Rows.{child, compared_child, makes};
ghost use Rattle.clause_core.specs.Says.{IsChild, IsReference, Says};
ghost use Rattle.inference_rules.specs.Answers.{Answered, AnsweredAlone, IsLimited};
ghost use Rattle.inference_rules.specs.Counting.{IsCounted};
ghost use Rattle.inference_rules.specs.Nodes.{children_with};

use crate::nodes::StepError;
use clause_core::{
    Child, Children, Clause, MOST_NODES, Place, Reference, Relation, Why, compare, into_tidied,
    tidied_within, within,
};
use place_comparison::{relation_at, within_at};
use std::alloc::Global;
use term_core::{OutOfMemory, Seq, Term};
use term_order::TermOrder;

/// What closes a node: neither children nor references.
pub(crate) fn closed(alloc: Global) -> Children
    ensures { (c : ClauseOf) → Says (λ t s. ⊥) c [] (makes [] []) (Ok result) }
{
    Children {
        clauses: Seq::new(alloc),
        refs: Seq::new(alloc),
    }
}

/// What is made of this clause alone, with this relation of the node to it.
pub(crate) fn related_alone(
    alloc: Global,
    relation: Relation,
    clause: Clause,
) -> Result<Children, StepError>
    ensures { (c : ClauseOf) →
        AnsweredAlone c (makes (child relation clause ∷ []) []) result }
{
    let Some(clause) = tidied_within(alloc, clause)? else {
        return Err(StepError::Why(Why::Limit));
    };
    let mut clauses = Seq::new(alloc);
    clauses.push(Child { clause, relation })?;
    Ok(Children {
        clauses,
        refs: Seq::new(alloc),
    })
}

/// What is made of these clauses, with one relation of the node to each of them.
pub(crate) fn related(
    alloc: Global,
    relation: Relation,
    clauses: Vec<Clause>,
) -> Result<Children, StepError>
    ensures { (c : ClauseOf) →
        AnsweredAlone c (makes (map (child relation) clauses.items) []) result }
{
    limited(tidied_all(alloc, relation, clauses)?, Seq::new(alloc))
}

/// The clauses, each tidied and with this relation.
fn tidied_all(
    alloc: Global,
    relation: Relation,
    clauses: Vec<Clause>,
) -> Result<Seq<Child>, OutOfMemory>
    ensures { IfOk result (λ made. (c : ClauseOf) →
        AllZip (IsChild (λ t s. ⊥) c) (map (child relation) clauses.items) made) }
{
    let mut made = Vec::with_capacity(alloc, clauses.len())?;
    for clause in clauses {
        let clause = into_tidied(alloc, clause)?;
        made.push(Child { clause, relation })?;
    }
    Ok(Seq::from_vec(made))
}

/// These clauses as children, with one relation of the node to each of them. They are tidied.
pub(crate) fn with_relation(
    alloc: Global,
    relation: Relation,
    clauses: Vec<Clause>,
) -> Result<Children, OutOfMemory>
    ensures { IfOk result (λ made. made ≡ children_with relation clauses.items) }
{
    let mut made = Vec::with_capacity(alloc, clauses.len())?;
    for clause in clauses {
        made.push(Child { clause, relation })?;
    }
    Ok(Children {
        clauses: Seq::from_vec(made),
        refs: Seq::new(alloc),
    })
}

/// A term of a clause, and its place.
#[derive(Clone, Copy)]
pub(crate) struct Spot<'a> {
    pub(crate) place: &'a Place,
    pub(crate) term: &'a Term,
}

/// The child whose place holds the new term instead of the old one, tidied, with these references.
/// It is compared with the node's clause as it is before that, by the two terms alone. A child that
/// passes the limits isn't built.
pub(crate) fn child_holding<O: TermOrder>(
    alloc: Global,
    order: &O,
    here: &Clause,
    old: &Spot,
    new: Term,
    refs: Seq<Reference>,
) -> Result<Children, StepError>
    requires here { IsWithin here.now }
    requires there { (at : TermAt here.now old.now.place.now) × (at.term ≡ old.now.term.now) }
    requires new { IsTestable new }
    ensures { (at : TermAt here.now old.now.place.now) (referred : List (ℕ × ClauseOf)) →
        AllZip (IsReference (O.above order.now) here.now) referred refs →
        Answered (O.above order.now) here.now []
        (makes (compared_child (holding at new) ∷ []) referred) result }
{
    let relation = relation_at(order, old.term, &new);
    if !within_at(here, old.place, old.term, &new) {
        return Err(StepError::Why(Why::Limit));
    }
    let child = here.holding(alloc, old.place, new)?;
    let clause = into_tidied(alloc, child)?;
    let mut clauses = Seq::new(alloc);
    clauses.push(Child { clause, relation })?;
    Ok(Children { clauses, refs })
}

/// A reference to the node with this number, with whose instance the node's clause is compared.
pub(crate) fn reference<O: TermOrder>(
    alloc: Global,
    order: &O,
    clause: &Clause,
    node: u32,
    instance: &Clause,
) -> Result<Reference, OutOfMemory>
    requires node { SidesAreTestable clause.now }
    requires instance { SidesAreTestable instance.now }
    ensures { IfOk result (λ made.
        IsReference (O.above order.now) clause.now (node, instance.now) made) }
{
    Ok(Reference {
        node,
        relation: compare(alloc, order, clause, instance)?,
    })
}

/// The children and references, if the children are within the limits. No other nodes are
/// counted.
pub(crate) fn limited(clauses: Seq<Child>, refs: Seq<Reference>) -> Result<Children, StepError>
    ensures { IsLimited (record { clauses = clauses; refs = refs }) result }
{
    if clauses.len() > MOST_NODES || !are_within(clauses.as_slice()) {
        return Err(StepError::Why(Why::Limit));
    }
    Ok(Children { clauses, refs })
}

/// Whether each child is within the limits of a clause in a proof.
fn are_within(children: &[Child]) -> bool
    ensures { IsTrue result ↔ AllByRecursion (λ (d : ChildOf). IsWithin d.clause) children.now }
{
    children.iter().all(|child| within(&child.clause))
}

/// The answer of a step if this many nodes come before the children that it makes.
pub(crate) fn counted(
    count: usize,
    answer: Result<Children, StepError>,
) -> Result<Children, StepError>
    ensures { IsCounted count answer result }
{
    let made = answer?;
    if count > MOST_NODES || made.clauses.len() > MOST_NODES - count {
        return Err(StepError::Why(Why::Limit));
    }
    Ok(made)
}
