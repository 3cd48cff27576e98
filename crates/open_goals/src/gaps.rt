//! `Gap`: what a lemma or a hypothesis that fits lacks.

use spec_core::Equation;
use term_core::Term;

/// What an equation lacks that fits at a node and gives no step there.
#[derive(Drop)]
pub enum Gap {
    /// It says the conclusion, but this premise isn't among those of the node.
    Says(Equation),
    /// It fits at the term, but the premise isn't among those of the node.
    Lacks { term: Term, premise: Equation },
    /// It fits at the term, but its other side isn't below the term.
    NotBelow { term: Term, other: Term },
    /// It fits at the term, and its other side is below, but not the whole of the hypothesis.
    TooLarge { term: Term, other: Term },
}
