//! The rows of a function.

ghost use Rattle.std.specs.Prelude.{◌≡◌, ◌++◌, IfOk, OnOk};
ghost use Rattle.spec_core.specs.WellSorted.{IsWellSorted};
ghost use Rattle.spec_core.specs.Linear.{LeftSidesAreLinear};
ghost use Rattle.coverage_check.specs.LeftSides.{row_of, rows_of as rows_of_function, AreRowsFor};
ghost use Rattle.coverage_check.specs.LeftSides.{MatchLeftSides};

use spec_core::Spec;
use std::alloc::Global;
use term_core::{OutOfMemory, SymId, Term, TermNode, Terms};

/// The argument patterns of the left sides of a function, in the order of its rules: what
/// [`covers`](crate::covers) takes with the function's argument sorts.
pub fn rows_of(alloc: Global, spec: &Spec, function: SymId) -> Result<Vec<Terms>, OutOfMemory>
    requires fine { IsWellSorted spec.now }
    requires linear { LeftSidesAreLinear spec.now }
    ensures are { IfOk result (λ rows. rows.items ≡ rows_of_function function.0 spec.now.rules) }
    ensures rows { IfOk result (λ rows. AreRowsFor spec.now function.0 rows.items) }
    ensures matched { IfOk result (λ rows. MatchLeftSides spec.now function.0 rows.items) }
{
    let mut rows = Vec::new(alloc);
    for rule in spec.rules.as_slice() {
        add_row(alloc, &rule.left, function, &mut rows)?;
    }
    Ok(rows)
}

/// Adds the arguments of a call of the function.
fn add_row(
    alloc: Global,
    left: &Term,
    function: SymId,
    rows: &mut Vec<Terms>,
) -> Result<(), OutOfMemory>
    ensures { OnOk result (rows.new.items ≡ rows.old.items ++ row_of function.0 left.now) }
{
    match &left.node {
        TermNode::App(sym, args) if *sym == function => {
            rows.push(args.copy(alloc)?)?;
            Ok(())
        }
        _ => Ok(()),
    }
}
