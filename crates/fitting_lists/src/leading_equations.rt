//! `leading`: the first equation in which all variables of a clause are.

ghost use Rattle.std.specs.Prelude.{◌≡◌, IfOk};
ghost use Rattle.fitting_lists.specs.Leading.{HasSpines, IsFirstWithAll, IsPlace};

use crate::occurring::equation_has_all;
use crate::spines::Spine;
use clause_core::Clause;
use spec_core::Equation;
use std::alloc::Global;
use term_core::OutOfMemory;

/// Where the leading equation of a clause is, its index in the conclusions or in the premises,
/// and the spines of its sides.
#[derive(Clone, Copy)]
pub struct LeadingPlace {
    pub conclusion: bool,
    pub index: usize,
    pub left: Spine,
    pub right: Spine,
}

impl LeadingPlace {
    fn of(conclusion: bool, index: usize, equation: &Equation) -> LeadingPlace
        ensures conclusion { result.conclusion ≡ conclusion }
        ensures index { result.index ≡ index }
        ensures spines { HasSpines equation.now result }
    {
        LeadingPlace {
            conclusion,
            index,
            left: Spine::of(&equation.left),
            right: Spine::of(&equation.right),
        }
    }
}

/// The place of the first equation in which all variables of the clause are, conclusions before
/// premises.
pub fn leading(alloc: Global, clause: &Clause) -> Result<Option<LeadingPlace>, OutOfMemory>
    ensures { IfOk result (IsPlace clause.now) }
{
    let conclusion = first_with_all(alloc, clause, true)?;
    if conclusion.is_some() {
        return Ok(conclusion);
    }
    let premise = first_with_all(alloc, clause, false)?;
    Ok(premise)
}

/// The place of the first of the conclusions, or of the premises, in which all variables of the
/// clause are.
fn first_with_all(
    alloc: Global,
    clause: &Clause,
    conclusion: bool,
) -> Result<Option<LeadingPlace>, OutOfMemory>
    ensures { IfOk result (IsFirstWithAll clause.now conclusion) }
{
    let equations = clause.equations(conclusion);
    for index in 0..equations.len() {
        let equation = &equations[index];
        if equation_has_all(alloc, clause, equation)? {
            return Ok(Some(LeadingPlace::of(conclusion, index, equation)));
        }
    }
    Ok(None)
}
