//! `may_become` and `heads_agree`: what can't become a term.

ghost use Rattle.std.specs.Prelude.{◌≡◌, List, IsTrue};
ghost use Rattle.term_core.specs.Tree.{Tree, trees_of, instance, instances};

use term_core::{Term, TermNode, front};

/// Whether the symbols of the pattern occur in the term too. If they don't, no list makes the
/// pattern the term. Repeated variables are not compared.
#[cycle(may_become)]
pub fn may_become(pattern: &Term, term: &Term) -> bool
    ensures { (list : List Tree) → instance list pattern.now ≡ term.now → IsTrue result }
{
    match (&pattern.node, &term.node) {
        (TermNode::Var(_), _) => true,
        (TermNode::App(sym, patterns), TermNode::App(other, terms)) => {
            sym == other && may_become_all(patterns.as_slice(), terms.as_slice())
        }
        _ => false,
    }
}

/// The same of patterns and terms, in their order.
#[cycle(may_become)]
fn may_become_all(patterns: &[Term], terms: &[Term]) -> bool
    ensures { (list : List Tree) →
        instances list (trees_of patterns.now) ≡ trees_of terms.now → IsTrue result }
{
    match (front(patterns), front(terms)) {
        (None, None) => true,
        (Some((pattern, patterns)), Some((term, terms))) => {
            may_become(pattern, term) && may_become_all(patterns, terms)
        }
        _ => false,
    }
}

/// Whether the root of the pattern is a variable or the symbol at the root of the term. If it is
/// neither, no list makes the pattern the term.
fn roots_agree(pattern: &Term, term: &Term) -> bool
    ensures { (list : List Tree) → instance list pattern.now ≡ term.now → IsTrue result }
{
    match (&pattern.node, &term.node) {
        (TermNode::Var(_), _) => true,
        (TermNode::App(sym, _), TermNode::App(other, _)) => sym == other,
        _ => false,
    }
}

/// The same of the roots, and of those of the arguments. It goes no deeper.
pub fn heads_agree(pattern: &Term, term: &Term) -> bool
    ensures { (list : List Tree) → instance list pattern.now ≡ term.now → IsTrue result }
{
    match (&pattern.node, &term.node) {
        (TermNode::Var(_), _) => true,
        (TermNode::App(sym, patterns), TermNode::App(other, terms)) => {
            sym == other && all_roots_agree(patterns.as_slice(), terms.as_slice())
        }
        _ => false,
    }
}

/// The same of the roots of patterns and terms, in their order.
fn all_roots_agree(patterns: &[Term], terms: &[Term]) -> bool
    ensures { (list : List Tree) →
        instances list (trees_of patterns.now) ≡ trees_of terms.now → IsTrue result }
{
    match (front(patterns), front(terms)) {
        (Some((pattern, patterns)), Some((term, terms))) => {
            roots_agree(pattern, term) && all_roots_agree(patterns, terms)
        }
        (None, rest) => rest.is_none(),
        (Some(_), None) => false,
    }
}
