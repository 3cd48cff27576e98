//! Whether a clause as it is says no less than another one.

ghost use Rattle.std.specs.Prelude.{◌⊎◌, ◌↔◌, IsTrue};
ghost use Rattle.std.specs.List.{AllByRecursion};
ghost use Rattle.spec_core.specs.declared.records.Equation.{Equation as EquationOf};
ghost use Rattle.clause_core.specs.Equations.{Among, IsIdentity};
ghost use Rattle.clause_core.specs.Subsuming.{Subsumes};

use clause_core::{Clause, among, is_identity};
use spec_core::Equation;

/// Whether the other clause, as it is, says no less than the clause here: its premises are there,
/// and each of its conclusions is among those here. No term is copied.
pub(crate) fn subsumes(here: &Clause, other: &Clause) -> bool
    ensures { IsTrue result ↔ Subsumes here.now other.now }
{
    are_there(other.premises.as_slice(), here.premises.as_slice())
        && are_among(other.conclusions.as_slice(), here.conclusions.as_slice())
}

/// Whether each of the premises is among those here or has identical sides.
fn are_there(premises: &[Equation], own: &[Equation]) -> bool
    ensures { IsTrue result ↔ AllByRecursion
        (λ (e : EquationOf). Among e own.now ⊎ IsIdentity e) premises.now }
{
    premises.iter().all(|premise| is_there(premise, own))
}

fn is_there(premise: &Equation, own: &[Equation]) -> bool
    ensures { IsTrue result ↔ (Among premise.now own.now ⊎ IsIdentity premise.now) }
{
    among(premise, own) || is_identity(premise)
}

/// Whether each of the conclusions is among those here.
fn are_among(conclusions: &[Equation], own: &[Equation]) -> bool
    ensures { IsTrue result ↔
        AllByRecursion (λ (e : EquationOf). Among e own.now) conclusions.now }
{
    conclusions.iter().all(|conclusion| among(conclusion, own))
}
