//! `bind`: what a pattern and a term add to the bindings.

ghost use Rattle.std.specs.Prelude.{◌≡◌, IfOk, IsTrue, List, Option};
ghost use Rattle.term_core.specs.Tree.{Tree, trees_of, var as variable};
ghost use Rattle.substitutions.specs.Substitution.{apply, apply_all};
ghost use Rattle.matching.specs.Extending.{Binds, BindsAll};

use crate::bindings::Bindings;
use term_core::{OutOfMemory, Term, TermNode, VarId, front};

/// Matches a pattern with a term, where `bindings` has the terms of the variables that were met. A
/// variable that was met must meet the same tree again. Nothing is copied.
#[cycle(bind)]
pub fn bind<'a>(
    pattern: &Term,
    term: &'a Term,
    bindings: &mut Bindings<'a>,
) -> Result<bool, OutOfMemory>
    ensures { IfOk result (Binds bindings.old pattern.now term.now bindings.new) }
{
    match &pattern.node {
        TermNode::Var(var) => bind_variable(*var, term, bindings),
        TermNode::App(sym, patterns) => match &term.node {
            TermNode::App(other, terms) if sym == other => {
                if some_is_larger(patterns.as_slice(), terms.as_slice()) {
                    return Ok(false);
                }
                bind_all(patterns.as_slice(), terms.as_slice(), bindings)
            }
            _ => Ok(false),
        },
    }
}

/// Matches the patterns with the terms, in their order.
#[cycle(bind)]
fn bind_all<'a>(
    patterns: &[Term],
    terms: &'a [Term],
    bindings: &mut Bindings<'a>,
) -> Result<bool, OutOfMemory>
    ensures { IfOk result (BindsAll bindings.old patterns.now terms.now bindings.new) }
{
    let first = front(patterns);
    let other = front(terms);
    match (first, other) {
        (None, None) => Ok(true),
        (Some((pattern, patterns)), Some((term, terms))) => {
            if !bind(pattern, term, bindings)? {
                return Ok(false);
            }
            bind_all(patterns, terms, bindings)
        }
        _ => Ok(false),
    }
}

/// Whether one of the patterns is larger than the term in its place. Then no substitution makes the
/// patterns the terms, which is known before any of them is walked.
fn some_is_larger(patterns: &[Term], terms: &[Term]) -> bool
    ensures { IsTrue result → (s : List (Option Tree)) →
        apply_all s (trees_of patterns.now) ≡ trees_of terms.now → ⊥ }
{
    match (front(patterns), front(terms)) {
        (Some((pattern, patterns)), Some((term, terms))) => {
            is_larger(pattern, term) || some_is_larger(patterns, terms)
        }
        _ => false,
    }
}

/// Whether the pattern has more symbols and variables than the term, or more levels. A substitution
/// makes neither less.
fn is_larger(pattern: &Term, term: &Term) -> bool
    ensures { IsTrue result → (s : List (Option Tree)) → apply s pattern.now ≡ term.now → ⊥ }
{
    if pattern.size(u32::MAX) > term.size(u32::MAX) {
        return true;
    }
    if pattern.depth(u32::MAX) > term.depth(u32::MAX) {
        return true;
    }
    false
}

/// Matches a variable with a term. If the variable was met before, both terms are compared.
fn bind_variable<'a>(
    var: VarId,
    term: &'a Term,
    bindings: &mut Bindings<'a>,
) -> Result<bool, OutOfMemory>
    ensures { IfOk result (Binds bindings.old (variable var.0) term.now bindings.new) }
{
    if let Some(bound) = bindings.get(var) {
        return Ok(bound.same(term));
    }
    bindings.set(var, term)?;
    Ok(true)
}
