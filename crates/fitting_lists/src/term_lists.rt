//! `copies` of what was found, and one try with the copies.

ghost use Rattle.std.specs.Prelude.{◌≡◌, [], ◌∷◌, IfOk};
ghost use Rattle.term_core.specs.References.{terms_of};
ghost use Rattle.fitting_lists.specs.Answering.{AreVariables, IsOnlyAnswer};
ghost use Rattle.fitting_lists.specs.Fitting.{both_sides};

use crate::matcher::Matcher;
use spec_core::Equation;
use std::alloc::Global;
use term_core::{OutOfMemory, Seq, Term};

/// The terms for the variables of the equation, of which there are this many, by which its sides
/// become these two. If there are none, nothing is copied.
pub fn fitting_terms(
    alloc: Global,
    count: usize,
    equation: &Equation,
    left: &Term,
    right: &Term,
) -> Result<Option<Seq<Term>>, OutOfMemory>
    requires { AreVariables count (both_sides equation.now) }
    ensures { IfOk result (IsOnlyAnswer (record {
      variables = count;
      patterns = both_sides equation.now;
      terms = left.now ∷ right.now ∷ [];
    })) }
{
    let mut matcher = Matcher::new(alloc);
    if !matcher.fitting(count, equation, left, right)? {
        return Ok(None);
    }
    Ok(Some(copies(alloc, matcher.terms())?))
}

/// Copies of the terms, in their order.
pub fn copies(alloc: Global, terms: &[&Term]) -> Result<Seq<Term>, OutOfMemory>
    ensures { IfOk result (λ made. made ≡ terms_of terms.now) }
{
    let mut made = Vec::with_capacity(alloc, terms.len())?;
    for term in terms {
        made.push(term.copy(alloc)?)?;
    }
    Ok(Seq::from_vec(made))
}
