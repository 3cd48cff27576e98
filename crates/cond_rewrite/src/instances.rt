//! Instances of right sides and guards that aren't too large, and `is_instance`.

ghost use Rattle.std.specs.Prelude.{◌≡◌, ◌<◌, ◌↔◌, IsTrue, IfOk, MatchOption, map};
ghost use Rattle.term_core.specs.Tree.{tree_size};
ghost use Rattle.substitutions.specs.Substitution.{apply};

use clause_core::{MOST_SYMBOLS, instance_size};
use std::alloc::Global;
use substitutions::Subst;
use term_core::{OutOfMemory, Term, TermNode};

/// The instance of the term, or None if it alone has more symbols than a clause in a proof. It
/// isn't built then: a variable may occur often and stand for a large term.
pub(crate) fn small_instance(
    alloc: Global,
    term: &Term,
    theta: &Subst,
) -> Result<Option<Term>, OutOfMemory>
    ensures { IfOk result (λ answer.
        MatchOption answer (4000 < tree_size (apply theta.now.terms term.now))
        (λ made. made ≡ apply theta.now.terms term.now)) }
{
    if instance_size(term, theta, MOST_SYMBOLS + 1) > MOST_SYMBOLS {
        return Ok(None);
    }
    Ok(Some(theta.apply(alloc, term)?))
}

/// Whether the term is the pattern's instance, which isn't built: both are walked.
#[cycle(is_instance)]
pub fn is_instance(theta: &Subst, pattern: &Term, term: &Term) -> bool
    ensures { IsTrue result ↔ (term.now ≡ apply theta.now.terms pattern.now) }
{
    match (&pattern.node, &term.node) {
        (TermNode::Var(var), _) => match theta.get(*var) {
            Some(image) => term.same(image),
            None => term.same(pattern),
        },
        (TermNode::App(f, patterns), TermNode::App(g, terms)) => {
            g == f && are_instances(theta, patterns.as_slice(), terms.as_slice())
        }
        _ => false,
    }
}

/// Whether the terms are the patterns' instances, in their order.
#[cycle(is_instance)]
fn are_instances(theta: &Subst, patterns: &[Term], terms: &[Term]) -> bool
    ensures { IsTrue result ↔ (terms.now ≡ map (apply theta.now.terms) patterns.now) }
{
    match (patterns, terms) {
        ([], []) => true,
        ([pattern, patterns @ ..], [term, terms @ ..]) => {
            is_instance(theta, pattern, term) && are_instances(theta, patterns, terms)
        }
        _ => false,
    }
}
