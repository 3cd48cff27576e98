//! Whether a variable is in a term.

ghost use Rattle.std.specs.Prelude.{◌↔◌, IsTrue};
ghost use Rattle.term_core.specs.Tree.{trees_of};
ghost use Rattle.term_core.specs.Variables.{Occurs, OccursAny};

use crate::tree::{Term, TermNode};

/// Whether the variable with this number occurs in the term. A clause that no contract limits may
/// have more variables than a term can name, so the number isn't one of 32 bits.
#[cycle(occurs)]
pub fn occurs(number: usize, term: &Term) -> bool
    ensures { IsTrue result ↔ Occurs number term.now }
{
    match &term.node {
        TermNode::Var(var) => var.0 as usize == number,
        TermNode::App(_, args) => {
            if number as u64 >= term.bound() {
                return false;
            }
            occurs_in_any(number, args.as_slice())
        }
    }
}

/// Whether the variable occurs in one of the terms.
#[cycle(occurs)]
fn occurs_in_any(number: usize, terms: &[Term]) -> bool
    ensures { IsTrue result ↔ OccursAny number (trees_of terms.now) }
{
    for term in terms {
        if occurs(number, term) {
            return true;
        }
    }
    false
}
