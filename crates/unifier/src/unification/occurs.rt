//! Whether a class is below itself.

ghost use Rattle.std.specs.Prelude.{◌≡◌, ◌<◌, ◌≤◌, ℕ, true, false, IfOk, MatchBool, length};
ghost use Rattle.unifier.specs.Graph.{IsGraph};
ghost use Rattle.unifier.specs.Roots.{root, AreRoots};
ghost use Rattle.unifier.specs.Cycles.{EachArg, IsAcyclic, HasNoModel};
ghost use Rattle.unifier.specs.Readiness.{AreReady, IsHeld, IsMarked, AreStuck, is_ready, marks};

use crate::unification::graph::Shape;
use std::alloc::Global;
use term_core::OutOfMemory;

/// The occurs test: whether no node is below itself, where the roots of its arguments' classes
/// are below a node. A node is ready when what is below it is, and rounds mark the nodes that
/// are ready until one finds none.
pub(crate) fn is_acyclic(
    alloc: Global,
    graph: &[Shape],
    roots: &[usize],
) -> Result<bool, OutOfMemory>
    requires graph { IsGraph graph.now }
    requires roots { AreRoots graph.now roots.now }
    ensures { IfOk result (λ done. MatchBool done
        (IsAcyclic graph.now roots.now)
        (HasNoModel graph.now roots.now)) }
{
    let mut ready = Vec::from_elem(alloc, false, graph.len())?;
    while mark_ready(graph, roots, &mut ready) {}
    Ok(all_ready(&ready))
}

/// Whether all nodes are ready.
fn all_ready(ready: &[bool]) -> bool
    ensures { MatchBool result
        ((k : ℕ) → k < length ready.now → is_ready ready.now k ≡ true)
        ((k : ℕ) × (k < length ready.now) × (is_ready ready.now k ≡ false)) }
{
    for done in ready {
        if !*done {
            return false;
        }
    }
    true
}

/// Marks the nodes whose arguments are ready, and says whether there was one.
fn mark_ready(graph: &[Shape], roots: &[usize], ready: &mut [bool]) -> bool
    requires graph { IsGraph graph.now }
    requires roots { AreRoots graph.now roots.now }
    requires long { length ready.old ≡ length graph.now }
    requires marked { IsMarked graph.now roots.now ready.old }
    ensures marked { IsMarked graph.now roots.now ready.new }
    ensures found { MatchBool result
        (marks ready.old < marks ready.new)
        (AreStuck graph.now roots.now ready.new (length graph.now)) }
{
    let mut found = false;
    for node in 0..graph.len() {
        if !ready[node] && are_ready(&graph[node], roots, ready) {
            ready[node] = true;
            found = true;
        }
    }
    found
}

/// Whether the roots of the arguments are ready.
fn are_ready(shape: &Shape, roots: &[usize], ready: &[bool]) -> bool
    requires nodes { EachArg (λ c. c < length roots.now) shape.now }
    requires roots { EachArg (λ c. root roots.now c < length ready.now) shape.now }
    ensures { MatchBool result
        (AreReady roots.now ready.now shape.now)
        (IsHeld roots.now ready.now shape.now) }
{
    match shape {
        Shape::Var(_) => true,
        Shape::App(_, nodes) => {
            for node in nodes.as_slice() {
                if !ready[roots[*node]] {
                    return false;
                }
            }
            true
        }
    }
}
