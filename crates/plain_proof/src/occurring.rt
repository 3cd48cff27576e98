//! Whether a variable occurs in an equation.

ghost use Rattle.std.specs.Prelude.{◌↔◌, ◌⊎◌, IsTrue};
ghost use Rattle.term_core.specs.Variables.{Occurs};

use spec_core::Equation;
use term_core::{VarId, occurs};

/// Whether the variable occurs in a side of the equation.
pub(crate) fn occurs_in(var: VarId, equation: &Equation) -> bool
    ensures { IsTrue result ↔ (Occurs var.0 equation.now.left ⊎ Occurs var.0 equation.now.right) }
{
    let number = var.0 as usize;
    occurs(number, &equation.left) || occurs(number, &equation.right)
}
