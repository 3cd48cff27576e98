//! One graph of both terms.

ghost use Rattle.std.specs.Prelude.{◌≡◌, ◌++◌, ◌∷◌, ℕ, [], IfOk, OnOk, MatchOption, length};
ghost use Rattle.term_core.specs.Tree.{trees_of};
ghost use Rattle.unifier.specs.Graph.{HasNoNode, IsNodeOf};
ghost use Rattle.unifier.specs.Adding.{Adds, AddsAll};

use std::alloc::Global;
use term_core::{OutOfMemory, Seq, SymId, Term, TermNode, VarId};

/// A node of a graph of terms: a variable, or a symbol with the nodes of its arguments.
#[derive(Drop)]
pub(crate) enum Shape {
    Var(VarId),
    App(SymId, Seq<usize>),
}

/// Adds the nodes of the term, each after those of its arguments, and gives the term's own. A
/// variable has one node, which is looked for along the graph; an application has a node for each
/// of its occurrences.
#[cycle(add)]
pub(crate) fn add(alloc: Global, graph: &mut Vec<Shape>, term: &Term) -> Result<usize, OutOfMemory>
    ensures { IfOk result (λ node. Adds graph.old.items term.now node graph.new.items) }
{
    match &term.node {
        TermNode::Var(var) => match node_of(graph, *var) {
            Some(node) => Ok(node),
            None => push(graph, Shape::Var(*var)),
        },
        TermNode::App(sym, args) => {
            let nodes = add_all(alloc, graph, args.as_slice())?;
            push(graph, Shape::App(*sym, nodes))
        }
    }
}

/// Adds the nodes of the terms, and gives the terms' own.
#[cycle(add)]
fn add_all(alloc: Global, graph: &mut Vec<Shape>, terms: &[Term]) -> Result<Seq<usize>, OutOfMemory>
    ensures { IfOk result (λ nodes. AddsAll graph.old.items terms.now nodes graph.new.items) }
{
    let mut nodes = Seq::new(alloc);
    for term in terms {
        nodes.push(add(alloc, graph, term)?)?;
    }
    Ok(nodes)
}

/// The node of the variable.
fn node_of(graph: &[Shape], var: VarId) -> Option<usize>
    ensures { MatchOption result (HasNoNode graph.now var.0) (IsNodeOf graph.now var.0) }
{
    for (node, shape) in graph.iter().enumerate() {
        if let Shape::Var(other) = shape {
            if *other == var {
                return Some(node);
            }
        }
    }
    None
}

/// Adds a node, and gives its number.
fn push(graph: &mut Vec<Shape>, shape: Shape) -> Result<usize, OutOfMemory>
    ensures place { IfOk result (λ node. node ≡ length graph.old.items) }
    ensures pushed { OnOk result (graph.new.items ≡ graph.old.items ++ shape ∷ []) }
{
    let node = graph.len();
    graph.push(shape)?;
    Ok(node)
}
