//! The classes of the graph's nodes.

ghost use Rattle.std.specs.Prelude.{◌≡◌, ◌<◌, ◌++◌, ◌∷◌, ℕ, [], IfOk, IfSome, OnOk, MatchBool};
ghost use Rattle.std.specs.Prelude.{length};
ghost use Rattle.std.specs.List.{zip};
ghost use Rattle.std.specs.Option.{IfNone};
ghost use Rattle.unifier.specs.Graph.{IsGraph};
ghost use Rattle.unifier.specs.Roots.{AreOwn, relabelled};
ghost use Rattle.unifier.specs.Classes.{Classes};
ghost use Rattle.unifier.specs.Closure.{IsClosure, IsClash, Joined, NotJoined};

use crate::unification::graph::Shape;
use std::alloc::Global;
use term_core::OutOfMemory;

/// The least classes of nodes that have both of these nodes in one class, and with two
/// applications their arguments, place by place. For each node comes the root of its class, which
/// is an application if the class has one. `None` comes if two applications of a class have
/// other symbols or other numbers of arguments.
pub(crate) fn close(
    alloc: Global,
    graph: &[Shape],
    first: usize,
    second: usize,
) -> Result<Option<Vec<usize>>, OutOfMemory>
    requires graph { IsGraph graph.now }
    requires first { first < length graph.now }
    requires second { second < length graph.now }
    ensures closed { IfOk result (λ found.
        IfSome found (λ roots. IsClosure graph.now first second roots.items)) }
    ensures clash { IfOk result (λ found. IfNone found (IsClash graph.now first second)) }
{
    let mut roots = own_roots(alloc, graph.len())?;
    let mut pending = Vec::new(alloc);
    pending.push((first, second))?;
    while let Some((left, right)) = pending.pop() {
        if !join(graph, &mut roots, &mut pending, left, right)? {
            return Ok(None);
        }
    }
    Ok(Some(roots))
}

/// Each node in a class of its own.
fn own_roots(alloc: Global, count: usize) -> Result<Vec<usize>, OutOfMemory>
    ensures { IfOk result (λ roots. AreOwn count roots.items) }
{
    let mut roots = Vec::with_capacity(alloc, count)?;
    for node in 0..count {
        roots.push(node)?;
    }
    Ok(roots)
}

/// Joins the classes of the two nodes, and leaves the pairs of their roots' arguments to be joined.
/// `false` comes if the roots have other symbols or other numbers of arguments.
fn join(
    graph: &[Shape],
    roots: &mut Vec<usize>,
    pending: &mut Vec<(usize, usize)>,
    left: usize,
    right: usize,
) -> Result<bool, OutOfMemory>
    requires graph { IsGraph graph.now }
    requires classes { Classes graph.now roots.old.items (pending.old.items ++ (left, right) ∷ []) }
    ensures { IfOk result (λ done. MatchBool done
        (Joined graph.now roots.old.items pending.old.items left right
        roots.new.items pending.new.items)
        (NotJoined graph.now roots.old.items left right)) }
{
    let from = roots[left];
    let to = roots[right];
    if from == to {
        return Ok(true);
    }
    // The root that stays is an application, if one of the two is.
    match (&graph[from], &graph[to]) {
        (Shape::App(f, xs), Shape::App(g, ys)) => {
            if f.0 != g.0 || xs.len() != ys.len() {
                return Ok(false);
            }
            push_pairs(pending, xs.as_slice(), ys.as_slice())?;
            relabel(roots, from, to);
            Ok(true)
        }
        (Shape::Var(_), _) => {
            relabel(roots, from, to);
            Ok(true)
        }
        (Shape::App(_, _), Shape::Var(_)) => {
            relabel(roots, to, from);
            Ok(true)
        }
    }
}

/// Adds the pairs of what is at one place of both lists.
fn push_pairs(
    pending: &mut Vec<(usize, usize)>,
    xs: &[usize],
    ys: &[usize],
) -> Result<(), OutOfMemory>
    requires { length xs.now ≡ length ys.now }
    ensures { OnOk result (pending.new.items ≡ pending.old.items ++ zip xs.now ys.now) }
{
    for place in 0..xs.len() {
        pending.push((xs[place], ys[place]))?;
    }
    Ok(())
}

/// Gives the nodes of the one root the other.
fn relabel(roots: &mut [usize], from: usize, to: usize)
    ensures { roots.new ≡ relabelled from to roots.old }
{
    for root in roots.iter_mut() {
        if *root == from {
            *root = to;
        }
    }
}
