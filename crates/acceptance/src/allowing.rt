//! `allowed`: flags of strict nodes from the last node down, then the first node with what isn't
//! allowed.

ghost use Rattle.std.specs.Prelude.{◌≡◌, ◌↔◌, ◌+◌, ◌<◌, IfOk, IsTrue, length};
ghost use Rattle.acceptance.specs.Strict.{first_child, Strict, NodeIsAllowed};
ghost use Rattle.acceptance.specs.AllowedAnswers.{IsWholeBlock, TellsAllowed, TellsStrict, FallsBy};
ghost use Rattle.acceptance.specs.AllowedAnswers.{AllowedBy, ChildrenFallBy, ReferencesFallBy};
ghost use Rattle.acceptance.specs.AllowedAnswers.{ChildrenAreAllowed, ReferencesAllowedBy};

use crate::answers::Allowed;
use clause_core::{Children, Relation};
use std::alloc::Global;
use term_core::OutOfMemory;

/// Whether each child and each reference in a block is allowed, where `made` has for each node in
/// order what its step makes. The time is that of the children and the references.
pub fn allowed(alloc: Global, made: &[Children]) -> Result<Allowed, OutOfMemory>
    requires { IsWholeBlock made.now }
    ensures { IfOk result (TellsAllowed made.now) }
{
    let strict = strict_nodes(alloc, made)?;
    for node in 0..made.len() {
        if !node_is_allowed(made, node, &strict) {
            return Ok(Allowed::Not { node: node as u32 });
        }
    }
    Ok(Allowed::All)
}

/// A flag for each node that says whether it is strict. They are set from the last node down, since
/// whether a node is strict depends on later ones alone.
fn strict_nodes(alloc: Global, made: &[Children]) -> Result<Vec<bool>, OutOfMemory>
    requires { IsWholeBlock made.now }
    ensures { IfOk result (λ strict. TellsStrict made.now 0 strict.items) }
{
    let mut strict = vec![in alloc; false; made.len()]?;
    let mut first = made.len();
    for node in (0..made.len()).rev() {
        first -= made[node].clauses.len();
        strict[node] = is_strict(made, node, first, &strict);
    }
    Ok(strict)
}

/// Whether the node is strict. Its children are numbered from `first` on.
fn is_strict(made: &[Children], node: usize, first: usize, strict: &[bool]) -> bool
    requires whole { IsWholeBlock made.now }
    requires node { node < length made.now }
    requires first { first ≡ first_child made.now node }
    requires strict { TellsStrict made.now (node + 1) strict.now }
    ensures { IsTrue result ↔ Strict made.now node }
{
    children_fall(made, node, first, strict) && references_fall(made, node, strict)
}

/// Whether each child of the node is Less, or is Same, later and strict.
fn children_fall(made: &[Children], node: usize, first: usize, strict: &[bool]) -> bool
    requires whole { IsWholeBlock made.now }
    requires node { node < length made.now }
    requires first { first ≡ first_child made.now node }
    requires strict { TellsStrict made.now (node + 1) strict.now }
    ensures { IsTrue result ↔ ChildrenFallBy made.now strict.now node }
{
    for (place, child) in made[node].clauses.as_slice().iter().enumerate() {
        if !falls(node, first + place, child.relation, strict) {
            return false;
        }
    }
    true
}

/// Whether each reference of the node is Less, or is Same, later and strict.
fn references_fall(made: &[Children], node: usize, strict: &[bool]) -> bool
    requires whole { IsWholeBlock made.now }
    requires node { node < length made.now }
    requires strict { TellsStrict made.now (node + 1) strict.now }
    ensures { IsTrue result ↔ ReferencesFallBy made.now strict.now node }
{
    for reference in made[node].refs.as_slice() {
        if !falls(node, reference.node as usize, reference.relation, strict) {
            return false;
        }
    }
    true
}

/// Whether a node that `node` leads to is Less, or is Same, later and strict.
fn falls(node: usize, other: usize, relation: Relation, strict: &[bool]) -> bool
    requires { other < length strict.now }
    ensures { IsTrue result ↔ FallsBy strict.now node other relation }
{
    match relation {
        Relation::Less => true,
        Relation::Same => node < other && strict[other],
        Relation::Neither => false,
    }
}

/// Whether each child and each reference of the node is allowed.
fn node_is_allowed(made: &[Children], node: usize, strict: &[bool]) -> bool
    requires whole { IsWholeBlock made.now }
    requires node { node < length made.now }
    requires strict { TellsStrict made.now 0 strict.now }
    ensures { IsTrue result ↔ NodeIsAllowed made.now node }
{
    children_are_allowed(made, node) && references_are_allowed(made, node, strict)
}

/// Whether each child of the node is allowed.
fn children_are_allowed(made: &[Children], node: usize) -> bool
    requires { node < length made.now }
    ensures { IsTrue result ↔ ChildrenAreAllowed made.now node }
{
    for child in made[node].clauses.as_slice() {
        if child.relation == Relation::Neither {
            return false;
        }
    }
    true
}

/// Whether each reference of the node is allowed.
fn references_are_allowed(made: &[Children], node: usize, strict: &[bool]) -> bool
    requires whole { IsWholeBlock made.now }
    requires node { node < length made.now }
    requires strict { TellsStrict made.now 0 strict.now }
    ensures { IsTrue result ↔ ReferencesAllowedBy made.now strict.now node }
{
    for reference in made[node].refs.as_slice() {
        if !is_allowed(node, reference.node as usize, reference.relation, strict) {
            return false;
        }
    }
    true
}

/// Whether a reference of `node` is allowed.
fn is_allowed(node: usize, other: usize, relation: Relation, strict: &[bool]) -> bool
    requires { other < length strict.now }
    ensures { IsTrue result ↔ AllowedBy strict.now node other relation }
{
    match relation {
        Relation::Less => true,
        Relation::Same => node < other || strict[other],
        Relation::Neither => false,
    }
}
