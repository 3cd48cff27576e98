//! Limits of instances that aren't built.

ghost use Rattle.std.specs.Prelude.{◌≡◌, ◌≤◌, ◌↔◌, IsTrue, List, map, min};
ghost use Rattle.term_core.specs.Tree.{trees_of, tree_size, sizes, tree_depth, depths};
ghost use Rattle.term_core.specs.declared.ids.SortId.{SortId as Sort};
ghost use Rattle.substitutions.specs.Substitution.{apply};
ghost use Rattle.clause_core.specs.ClauseInstances.{equation_instance, clause_instance};
ghost use Rattle.clause_core.specs.Clauses.{sides_of};
ghost use Rattle.clause_core.specs.Limits.{IsWithin};

use crate::clauses::Clause;
use crate::limits::{MOST_EQUATIONS, MOST_LEVELS, MOST_SYMBOLS};
use spec_core::Equation;
use substitutions::Subst;
use term_core::{Term, TermNode};

/// Whether the clause with the entries of `theta` put in is within the limits of a clause in a
/// proof. The instance is not built, and no side of it is walked much further than the limits: a
/// variable may occur often and stand for a large term.
pub fn instance_within(clause: &Clause, theta: &Subst) -> bool
    ensures { (ctx : List Sort) →
        (IsTrue result ↔ IsWithin (clause_instance theta.now.terms ctx clause.now)) }
{
    let premises = clause.premises.as_slice();
    let conclusions = clause.conclusions.as_slice();
    if premises.len() > MOST_EQUATIONS || conclusions.len() > MOST_EQUATIONS - premises.len() {
        return false;
    }
    let first = sides_size(premises, theta, MOST_SYMBOLS + 1);
    let second = sides_size(conclusions, theta, MOST_SYMBOLS + 1);
    if first + second > MOST_SYMBOLS {
        return false;
    }
    let first = sides_depth(premises, theta, MOST_LEVELS + 1);
    let second = sides_depth(conclusions, theta, MOST_LEVELS + 1);
    first.max(second) <= MOST_LEVELS
}

/// The sum of the sizes of the instances of the sides, or `cap` if that is less.
fn sides_size(equations: &[Equation], theta: &Subst, cap: u32) -> u32
    ensures { result ≡ min (sizes (trees_of (sides_of
        (map (equation_instance theta.now.terms) equations.now)))) cap }
{
    let mut size: u32 = 0;
    for equation in equations {
        size += instance_size(&equation.left, theta, cap - size);
        size += instance_size(&equation.right, theta, cap - size);
    }
    size
}

/// The greatest depth of an instance of a side, or `cap` if that is less.
fn sides_depth(equations: &[Equation], theta: &Subst, cap: u32) -> u32
    ensures { result ≡ min (depths (trees_of (sides_of
        (map (equation_instance theta.now.terms) equations.now)))) cap }
{
    let mut depth: u32 = 0;
    for equation in equations {
        depth = depth
            .max(instance_depth(&equation.left, theta, cap))
            .max(instance_depth(&equation.right, theta, cap));
    }
    depth
}

/// The size of the term's instance, or `cap` if that is less. The instance is not built, and
/// not walked past `cap`.
#[cycle(instance_size)]
pub fn instance_size(term: &Term, theta: &Subst, cap: u32) -> u32
    ensures { result ≡ min (tree_size (apply theta.now.terms term.now)) cap }
{
    if cap == 0 {
        return 0;
    }
    match &term.node {
        TermNode::Var(var) => match theta.get(*var) {
            Some(image) => image.size(cap),
            None => 1,
        },
        TermNode::App(_, args) => 1 + instance_sizes(args.as_slice(), theta, cap - 1),
    }
}

/// The sum of the sizes of the terms' instances, or `cap` if that is less.
#[cycle(instance_size)]
fn instance_sizes(terms: &[Term], theta: &Subst, cap: u32) -> u32
    ensures { result ≡ min (sizes (trees_of (map (apply theta.now.terms) terms.now))) cap }
{
    let mut size: u32 = 0;
    for term in terms {
        size += instance_size(term, theta, cap - size);
    }
    size
}

/// The depth of the term's instance, or `cap` if that is less. The instance is not built, and
/// not walked below `cap`.
#[cycle(instance_depth)]
pub fn instance_depth(term: &Term, theta: &Subst, cap: u32) -> u32
    ensures { result ≡ min (tree_depth (apply theta.now.terms term.now)) cap }
{
    if cap == 0 {
        return 0;
    }
    match &term.node {
        TermNode::Var(var) => match theta.get(*var) {
            Some(image) => image.depth(cap),
            None => 1,
        },
        TermNode::App(_, args) => 1 + instance_depths(args.as_slice(), theta, cap - 1),
    }
}

/// The greatest depth of an instance of the terms, or `cap` if that is less.
#[cycle(instance_depth)]
fn instance_depths(terms: &[Term], theta: &Subst, cap: u32) -> u32
    ensures { result ≡ min (depths (trees_of (map (apply theta.now.terms) terms.now))) cap }
{
    let mut depth: u32 = 0;
    for term in terms {
        depth = depth.max(instance_depth(term, theta, cap));
    }
    depth
}
