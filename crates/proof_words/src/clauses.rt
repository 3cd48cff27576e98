//! `draw_clause`: equations, premises and conclusions.

ghost use Rattle.std.specs.Prelude.{◌≡◌, OnOk, option_copied};
ghost use Rattle.page_core.specs.Pages.{after};
ghost use Rattle.proof_words.specs.ClauseEvents.{arrow, clause_events, equation_events};
ghost use Rattle.proof_words.specs.ClauseEvents.{equations_events};
ghost use Rattle.proof_words.specs.ClauseEvents.{implication_events, separator as separator_of};
ghost use Rattle.proof_words.specs.ClauseEvents.{side_mark as mark_of_side};

use crate::lists::draw_separation;
use crate::naming::Naming;
use crate::terms::draw_side;
use clause_core::{Clause, Place};
use page_core::{Page, Style};
use spec_core::Equation;
use term_core::OutOfMemory;

/// Draws a clause, with the term at the place marked.
pub fn draw_clause(
    page: &mut Page,
    naming: &Naming<'_>,
    mark: Option<&Place>,
    clause: &Clause,
) -> Result<(), OutOfMemory>
    ensures { OnOk result (page.new ≡ after page.old
        (clause_events naming.now.sig.now naming.now.names.now (option_copied mark.entry)
        clause.now)) }
{
    let premises = clause.premises.as_slice();
    draw_implication(page, naming, mark, premises, clause.conclusions.as_slice())
}

/// Draws premises and conclusions, with an arrow between them.
pub(crate) fn draw_implication(
    page: &mut Page,
    naming: &Naming<'_>,
    mark: Option<&Place>,
    premises: &[Equation],
    conclusions: &[Equation],
) -> Result<(), OutOfMemory>
    ensures { OnOk result (page.new ≡ after page.old
        (implication_events naming.now.sig.now naming.now.names.now (option_copied mark.entry)
        premises.now conclusions.now)) }
{
    draw_equations(page, naming, mark, false, premises)?;
    draw_arrow(page, premises, conclusions)?;
    draw_equations(page, naming, mark, true, conclusions)
}

fn draw_arrow(
    page: &mut Page,
    premises: &[Equation],
    conclusions: &[Equation],
) -> Result<(), OutOfMemory>
    ensures { OnOk result (page.new ≡ after page.old (arrow premises.now conclusions.now)) }
{
    match (premises, conclusions) {
        ([], []) => page.text(Style::Plain, b"=>"),
        ([], _) => Ok(()),
        (_, []) => page.text(Style::Plain, b" =>"),
        _ => page.text(Style::Plain, b" => "),
    }
}

/// Draws conclusions (true) or premises.
pub(crate) fn draw_equations(
    page: &mut Page,
    naming: &Naming<'_>,
    mark: Option<&Place>,
    conclusion: bool,
    equations: &[Equation],
) -> Result<(), OutOfMemory>
    ensures { OnOk result (page.new ≡ after page.old
        (equations_events naming.now.sig.now naming.now.names.now (option_copied mark.entry)
        conclusion equations.now)) }
{
    for (index, equation) in equations.iter().enumerate() {
        draw_separation(page, separator(conclusion), index)?;
        draw_equation(page, naming, mark, conclusion, index + 1, equation)?;
    }
    Ok(())
}

/// Draws the conclusion (true) or premise of this number.
fn draw_equation(
    page: &mut Page,
    naming: &Naming<'_>,
    mark: Option<&Place>,
    conclusion: bool,
    number: usize,
    equation: &Equation,
) -> Result<(), OutOfMemory>
    ensures { OnOk result (page.new ≡ after page.old
        (equation_events naming.now.sig.now naming.now.names.now (option_copied mark.entry)
        conclusion number equation.now)) }
{
    let left = side_mark(mark, conclusion, number, true);
    draw_side(page, naming, left, &equation.left)?;
    page.text(Style::Plain, b" = ")?;
    let right = side_mark(mark, conclusion, number, false);
    draw_side(page, naming, right, &equation.right)
}

/// What is marked in a side.
fn side_mark<'a>(
    mark: Option<&'a Place>,
    conclusion: bool,
    number: usize,
    left: bool,
) -> Option<&'a [u8]>
    ensures { option_copied result ≡
        mark_of_side (option_copied mark.entry) conclusion number left }
{
    let place = mark?;
    if place.conclusion == conclusion && place.number as usize == number && place.left == left {
        Some(place.path.as_slice())
    } else {
        None
    }
}

/// What stands between conclusions (true) or premises.
fn separator(conclusion: bool) -> &'static [u8]
    ensures { result.now ≡ separator_of conclusion }
{
    if conclusion { b" | " } else { b", " }
}
