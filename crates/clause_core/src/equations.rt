//! Equations as written or swapped, among others, by their numbers, and others in their place.

ghost use Rattle.std.specs.Prelude.{◌≡◌, ◌↔◌, IsTrue, IfOk, MatchOption};
ghost use Rattle.clause_core.specs.Equations.{IsEither, Among, IsIdentity};
ghost use Rattle.clause_core.specs.NumberedEquations.{EquationAt, equations as equations_of};
ghost use Rattle.clause_core.specs.NumberedEquations.{with_equations as with_other_equations};
ghost use Rattle.clause_core.specs.NumberedEquations.{exchanged as exchanged_clause};

use crate::clauses::Clause;
use crate::instances::copy_sorts;
use spec_core::Equation;
use std::alloc::Global;
use term_core::{OutOfMemory, Seq};

/// Whether the other equation is this one, as written or with its sides swapped.
pub fn is_either(equation: &Equation, other: &Equation) -> bool
    ensures { IsTrue result ↔ IsEither equation.now other.now }
{
    (other.left.same(&equation.left) && other.right.same(&equation.right))
        || (other.left.same(&equation.right) && other.right.same(&equation.left))
}

/// Whether the list has the equation, as written or with its sides swapped.
pub fn among(equation: &Equation, equations: &[Equation]) -> bool
    ensures { IsTrue result ↔ Among equation.now equations.now }
{
    for other in equations {
        if is_either(equation, other) {
            return true;
        }
    }
    false
}

/// Whether both sides are one term.
pub fn is_identity(equation: &Equation) -> bool
    ensures { IsTrue result ↔ IsIdentity equation.now }
{
    equation.left.same(&equation.right)
}

/// Copies of the equations, in their order.
pub fn copy_equations(alloc: Global, equations: &[Equation]) -> Result<Vec<Equation>, OutOfMemory>
    ensures { IfOk result (λ made. made.items ≡ equations.now) }
{
    let mut made = Vec::with_capacity(alloc, equations.len())?;
    for equation in equations {
        made.push(Equation {
            left: equation.left.copy(alloc)?,
            right: equation.right.copy(alloc)?,
        })?;
    }
    Ok(made)
}

impl Clause {
    /// The conclusions if true, the premises if false.
    pub fn equations(&self, conclusion: bool) -> &[Equation]
        ensures { result.now ≡ equations_of conclusion self.now }
    {
        if conclusion {
            self.conclusions.as_slice()
        } else {
            self.premises.as_slice()
        }
    }

    /// The conclusion (true) or premise with this number, which counts from 1.
    pub fn equation(&self, conclusion: bool, number: u16) -> Option<&Equation>
        ensures { MatchOption result (EquationAt (equations_of conclusion self.now) number → ⊥)
            (λ e. (at : EquationAt (equations_of conclusion self.now) number)
            × (at.equation ≡ e.now)) }
    {
        let place = usize::from(number.checked_sub(1)?);
        self.equations(conclusion).get(place)
    }

    /// A copy with these conclusions (true) or premises in place of the clause's own.
    pub fn with_equations(
        &self,
        alloc: Global,
        conclusion: bool,
        equations: Vec<Equation>,
    ) -> Result<Clause, OutOfMemory>
        ensures { IfOk result (λ made.
            made ≡ with_other_equations conclusion self.now equations.items) }
    {
        let ctx = copy_sorts(alloc, self.ctx.as_slice())?;
        let changed = Seq::from_vec(equations);
        let kept = Seq::from_vec(copy_equations(alloc, self.equations(!conclusion))?);
        if conclusion {
            return Ok(Clause {
                ctx,
                premises: kept,
                conclusions: changed,
            });
        }
        Ok(Clause {
            ctx,
            premises: changed,
            conclusions: kept,
        })
    }

    /// A copy with these equations in place of the conclusion (true) or premise with this number.
    pub fn exchanged(
        &self,
        alloc: Global,
        conclusion: bool,
        number: u16,
        equations: Vec<Equation>,
    ) -> Result<Clause, OutOfMemory>
        requires { EquationAt (equations_of conclusion self.now) number }
        ensures { IfOk result (λ made.
            (at : EquationAt (equations_of conclusion self.now) number) →
            made ≡ exchanged_clause conclusion self.now at equations.items) }
    {
        let own = self.equations(conclusion);
        let place = usize::from(number) - 1;
        let mut made = copy_equations(alloc, &own[..place])?;
        let mut others = equations;
        made.append(&mut others)?;
        let mut rest = copy_equations(alloc, &own[place + 1..])?;
        made.append(&mut rest)?;
        self.with_equations(alloc, conclusion, made)
    }
}
