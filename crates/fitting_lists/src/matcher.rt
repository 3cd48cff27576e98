//! `Matcher`: tries for the only list, in room that is used again.

ghost use Rattle.std.specs.Prelude.{◌≡◌, [], ◌∷◌, IfOk};
ghost use Rattle.term_core.specs.References.{terms_of};
ghost use Rattle.fitting_lists.specs.Answering.{AreVariables, IsOnlyAnswer};
ghost use Rattle.fitting_lists.specs.Fitting.{both_sides};
ghost use Rattle.fitting_lists.specs.Found.{found_in, answer_of};

use crate::along::sides_agree;
use crate::becoming::heads_agree;
use matching::{Bindings, bind};
use spec_core::Equation;
use std::alloc::Global;
use term_core::{OutOfMemory, Term};

/// Room in which the variables of a pattern get their terms. It is used again from try to try, so
/// that a try allocates nothing once there is room for its variables. A try compares some symbols
/// first: if they differ, nothing is touched. If memory runs out, the next try goes on as any
/// other.
#[derive(Drop)]
pub struct Matcher<'a> {
    bindings: Bindings<'a>,
    found: Vec<&'a Term>,
}

impl<'a> Matcher<'a> {
    /// No room yet.
    pub fn new(alloc: Global) -> Matcher<'a> {
        Matcher {
            bindings: Bindings::new(alloc),
            found: Vec::new(alloc),
        }
    }

    /// Whether the equation, which has this many variables, becomes that of these two sides by some
    /// list of terms, which is then `terms`. Nothing is copied.
    pub fn fitting(
        &mut self,
        count: usize,
        equation: &Equation,
        left: &'a Term,
        right: &'a Term,
    ) -> Result<bool, OutOfMemory>
        requires { AreVariables count (both_sides equation.now) }
        ensures { IfOk result (λ found. IsOnlyAnswer (record {
          variables = count;
          patterns = both_sides equation.now;
          terms = left.now ∷ right.now ∷ [];
        }) (answer_of found self.new)) }
    {
        if !sides_agree(equation, left, right) {
            return Ok(false);
        }
        self.bindings.reset(count)?;
        if !bind(&equation.left, left, &mut self.bindings)? {
            return Ok(false);
        }
        if !bind(&equation.right, right, &mut self.bindings)? {
            return Ok(false);
        }
        self.bindings.list(&mut self.found)?;
        Ok(true)
    }

    /// Whether the side, which has this many variables, becomes the term by some list of terms,
    /// which is then `terms`. Nothing is copied.
    pub fn rewriting(
        &mut self,
        count: usize,
        side: &Term,
        term: &'a Term,
    ) -> Result<bool, OutOfMemory>
        requires { AreVariables count (side.now ∷ []) }
        ensures { IfOk result (λ found. IsOnlyAnswer (record {
          variables = count;
          patterns = side.now ∷ [];
          terms = term.now ∷ [];
        }) (answer_of found self.new)) }
    {
        if !heads_agree(side, term) {
            return Ok(false);
        }
        self.bindings.reset(count)?;
        if !bind(side, term, &mut self.bindings)? {
            return Ok(false);
        }
        self.bindings.list(&mut self.found)?;
        Ok(true)
    }

    /// The list that the last try found, if it found one.
    pub fn terms(&self) -> &[&'a Term]
        ensures { terms_of result.now ≡ found_in self.now }
    {
        self.found.as_slice()
    }
}
