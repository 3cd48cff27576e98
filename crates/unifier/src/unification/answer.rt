//! The unifier of classes that have trees.

ghost use Rattle.std.specs.Prelude.{◌≡◌, ◌<◌, IfOk, length};
ghost use Rattle.term_core.specs.Tree.{trees_of};
ghost use Rattle.unifier.specs.Graph.{IsGraph, HasOneNodeEach, AllBelow};
ghost use Rattle.unifier.specs.Roots.{AreRoots};
ghost use Rattle.unifier.specs.Cycles.{IsAcyclic};
ghost use Rattle.unifier.specs.Answer.{AreEntries, resolved, resolved_all};

use crate::unification::graph::Shape;
use std::alloc::Global;
use substitutions::Subst;
use term_core::{OutOfMemory, Term, Terms};

/// Each variable becomes the term of its class's root, and stays as it is if it is the root.
pub(crate) fn entries(alloc: Global, graph: &[Shape], roots: &[usize]) -> Result<Subst, OutOfMemory>
    requires graph { IsGraph graph.now }
    requires variables { HasOneNodeEach graph.now }
    requires roots { AreRoots graph.now roots.now }
    requires acyclic { IsAcyclic graph.now roots.now }
    ensures { IfOk result (λ made. AreEntries graph.now roots.now made.terms) }
{
    let mut made = Subst::new(alloc);
    for (node, shape) in graph.iter().enumerate() {
        if let Shape::Var(var) = shape {
            let root = roots[node];
            if root != node {
                let term = resolve(alloc, graph, roots, root)?;
                made.set(alloc, *var, term)?;
            }
        }
    }
    Ok(made)
}

/// The term of a root.
#[cycle(resolve)]
fn resolve(
    alloc: Global,
    graph: &[Shape],
    roots: &[usize],
    node: usize,
) -> Result<Term, OutOfMemory>
    requires graph { IsGraph graph.now }
    requires roots { AreRoots graph.now roots.now }
    requires acyclic { IsAcyclic graph.now roots.now }
    requires node { node < length graph.now }
    ensures { IfOk result (λ made. made ≡ resolved graph.now roots.now node) }
{
    match &graph[node] {
        Shape::Var(var) => Ok(Term::var(*var)),
        Shape::App(sym, nodes) => Ok(Term::app(
            *sym,
            resolve_all(alloc, graph, roots, nodes.as_slice())?,
        )),
    }
}

/// The terms of the roots of the nodes.
#[cycle(resolve)]
fn resolve_all(
    alloc: Global,
    graph: &[Shape],
    roots: &[usize],
    nodes: &[usize],
) -> Result<Terms, OutOfMemory>
    requires graph { IsGraph graph.now }
    requires roots { AreRoots graph.now roots.now }
    requires acyclic { IsAcyclic graph.now roots.now }
    requires nodes { AllBelow (length graph.now) nodes.now }
    ensures { IfOk result (λ made. trees_of made ≡ resolved_all graph.now roots.now nodes.now) }
{
    let mut made = Terms::with_capacity(alloc, nodes.len())?;
    for node in nodes {
        made.push(resolve(alloc, graph, roots, roots[*node])?)?;
    }
    Ok(made)
}
