//! The constants `true` and `false` as terms.

ghost use Rattle.std.specs.Prelude.{◌≡◌};
ghost use Rattle.spec_core.specs.Gives.{boolean as boolean_tree};

use std::alloc::Global;
use term_core::{SymId, Term, Terms};

/// The constant `true` or `false`. It takes no memory.
pub fn boolean(alloc: Global, value: bool) -> Term
    ensures { result ≡ boolean_tree value }
{
    let number = if value { 0 } else { 1 };
    Term::app(SymId(number), Terms::new(alloc))
}
