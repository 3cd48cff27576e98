//! The values that refute a goal, and what its sides give.

ghost use Rattle.std.specs.Prelude.{◌≡◌, ℕ, None, IfOk, MatchOption, OnOk, Some, flat_map};
ghost use Rattle.std.specs.Prelude.{option_copied, slice_get};
ghost use Rattle.std.specs.List.{AllByRecursion};
ghost use Rattle.spec_core.specs.WellSorted.{IsWellSorted};
ghost use Rattle.acceptance.specs.Accepting.{AreNamedValues, values_in};
ghost use Rattle.ground_eval.specs.Sides.{HasOneSort};
ghost use Rattle.page_core.specs.Pages.{after};
ghost use Rattle.report_pages.specs.Differences.{IsNarrow};
ghost use Rattle.report_pages.specs.Lists.{Draws};
ghost use Rattle.report_pages.specs.Refutations.{AreEquationsShown, IsEquationShown};
ghost use Rattle.report_pages.specs.Refutations.{IsRefutationShown, SidesAreCompared};
ghost use Rattle.report_pages.specs.Refutations.{stated_events};
ghost use Rattle.report_pages.specs.Settings.{IsReady};
ghost use Rattle.report_pages.specs.Values.{IsComparison, both_give, each_gives, each_marked};
ghost use Rattle.report_pages.specs.Values.{marked_in, side_gives, value_events, variable_events};

use crate::counting::draw_uses;
use crate::differing::difference;
use crate::evaluating::{Setting, names_of, side_value, substitution_of};
use ground_eval::Eval;
use page_core::{Page, Part, Style};
use proof_words::{Naming, draw_side, equation_name};
use spec_core::{Equation, Goal, Signature, Spec};
use std::alloc::Global;
use term_core::{Name, OutOfMemory, Term};

/// Draws the values under which the goal fails, and what each side gives under them within these
/// steps.
pub(crate) fn draw_refuted(
    alloc: Global,
    page: &mut Page,
    spec: &Spec,
    goal: &Goal,
    values: &[(Name, Term)],
    steps: u32,
) -> Result<(), OutOfMemory>
    requires fine { IsWellSorted spec.now }
    requires listed { (k : ℕ) × (slice_get spec.now.goals k ≡ Some goal.now) }
    requires values { AreNamedValues spec.now goal.now values.now }
    ensures { OnOk result (Draws page.old page.new
        (IsRefutationShown spec.now steps values.now goal.now)) }
{
    draw_values(alloc, page, &spec.sig, values)?;
    let names = names_of(alloc, values)?;
    let theta = substitution_of(alloc, values)?;
    let at = Setting {
        alloc,
        spec,
        values,
        names: &names,
        theta: &theta,
        steps,
    };
    draw_equations(page, &at, false, goal.premises.as_slice())?;
    draw_equations(page, &at, true, goal.conclusions.as_slice())
}

/// Draws a line with each variable's value.
pub fn draw_values(
    alloc: Global,
    page: &mut Page,
    sig: &Signature,
    values: &[(Name, Term)],
) -> Result<(), OutOfMemory>
    ensures { OnOk result (page.new ≡ after page.old
        (flat_map (variable_events sig.now) values.now)) }
{
    for (name, value) in values {
        draw_variable(alloc, page, sig, name, value)?;
    }
    Ok(())
}

/// Draws the line of a variable's value.
fn draw_variable(
    alloc: Global,
    page: &mut Page,
    sig: &Signature,
    name: &Name,
    value: &Term,
) -> Result<(), OutOfMemory>
    ensures { OnOk result (page.new ≡ after page.old
        (variable_events sig.now (name.now, value.now))) }
{
    page.begin(Part::Value)?;
    page.text(Style::Plain, name.as_bytes())?;
    page.text(Style::Plain, b" = ")?;
    draw_value(alloc, page, sig, None, value)?;
    page.end(Part::Value)
}

/// Draws a value, with the place at the path marked.
fn draw_value(
    alloc: Global,
    page: &mut Page,
    sig: &Signature,
    mark: Option<&[u8]>,
    value: &Term,
) -> Result<(), OutOfMemory>
    ensures { OnOk result (page.new ≡ after page.old
        (value_events sig.now (option_copied mark.entry) value.now)) }
{
    let naming = Naming {
        alloc,
        sig,
        names: &[],
    };
    draw_side(page, &naming, mark, value)
}

/// Draws conclusions (true) or premises, and what their sides give.
fn draw_equations(
    page: &mut Page,
    at: &Setting<'_>,
    conclusion: bool,
    equations: &[Equation],
) -> Result<(), OutOfMemory>
    requires ready { IsReady at.now }
    requires sorted { AllByRecursion (HasOneSort at.now.spec.now (values_in at.now.values.now))
        equations.now }
    ensures { OnOk result (Draws page.old page.new (AreEquationsShown at.now.spec.now at.now.steps
        at.now.values.now conclusion equations.now)) }
{
    for (index, equation) in equations.iter().enumerate() {
        draw_equation(page, at, conclusion, index + 1, equation)?;
    }
    Ok(())
}

/// Draws the conclusion (true) or premise of this number, and what its sides give.
fn draw_equation(
    page: &mut Page,
    at: &Setting<'_>,
    conclusion: bool,
    number: usize,
    equation: &Equation,
) -> Result<(), OutOfMemory>
    requires ready { IsReady at.now }
    requires sorted { HasOneSort at.now.spec.now (values_in at.now.values.now) equation.now }
    ensures { OnOk result (Draws page.old page.new (IsEquationShown at.now.spec.now at.now.steps
        at.now.values.now conclusion number equation.now)) }
{
    page.begin(Part::Value)?;
    draw_stated(page, at, conclusion, number, equation)?;
    page.end(Part::Value)?;
    page.begin(Part::Value)?;
    draw_sides(page, at, equation)?;
    page.end(Part::Value)
}

/// Draws the equation as it is written, after its number.
fn draw_stated(
    page: &mut Page,
    at: &Setting<'_>,
    conclusion: bool,
    number: usize,
    equation: &Equation,
) -> Result<(), OutOfMemory>
    requires { IsReady at.now }
    ensures { OnOk result (page.new ≡ after page.old (stated_events at.now.spec.now.sig
        at.now.values.now conclusion number equation.now)) }
{
    let naming = Naming {
        alloc: at.alloc,
        sig: &at.spec.sig,
        names: at.names,
    };
    page.text(Style::Plain, equation_name(conclusion))?;
    page.number(number)?;
    page.text(Style::Plain, b": ")?;
    draw_side(page, &naming, None, &equation.left)?;
    page.text(Style::Plain, b" = ")?;
    draw_side(page, &naming, None, &equation.right)
}

/// Draws what the sides of the equation give.
fn draw_sides(page: &mut Page, at: &Setting<'_>, equation: &Equation) -> Result<(), OutOfMemory>
    requires ready { IsReady at.now }
    requires sorted { HasOneSort at.now.spec.now (values_in at.now.values.now) equation.now }
    ensures { OnOk result (Draws page.old page.new (SidesAreCompared at.now.spec.now at.now.steps
        at.now.values.now equation.now)) }
{
    let left = side_value(at, &equation.left)?;
    let right = side_value(at, &equation.right)?;
    draw_comparison(page, at, &left, &right)
}

/// Draws what two sides give.
fn draw_comparison(
    page: &mut Page,
    at: &Setting<'_>,
    left: &Eval,
    right: &Eval,
) -> Result<(), OutOfMemory>
    requires { IsNarrow left.now }
    ensures { OnOk result (Draws page.old page.new
        (IsComparison at.now.spec.now.sig at.now.steps left.now right.now)) }
{
    if let (
        Eval::Value { value, steps },
        Eval::Value {
            value: other,
            steps: more,
        },
    ) = (left, right)
    {
        if value.same(other) {
            return draw_both(page, at, value, *steps, *more);
        }
    }
    draw_each(page, at, left, right)
}

/// Draws the value that both sides give, and both costs.
fn draw_both(
    page: &mut Page,
    at: &Setting<'_>,
    value: &Term,
    left_cost: u32,
    right_cost: u32,
) -> Result<(), OutOfMemory>
    ensures { OnOk result (page.new ≡ after page.old
        (both_give at.now.spec.now.sig value.now left_cost right_cost)) }
{
    page.text(Style::Plain, b"  both sides give ")?;
    draw_value(at.alloc, page, &at.spec.sig, None, value)?;
    page.text(Style::Plain, b", in ")?;
    page.number(left_cost as usize)?;
    page.text(Style::Plain, b" and ")?;
    page.number(right_cost as usize)?;
    page.text(Style::Plain, b" rule uses")
}

/// Draws what each side gives, with the first difference of their values marked.
fn draw_each(
    page: &mut Page,
    at: &Setting<'_>,
    left: &Eval,
    right: &Eval,
) -> Result<(), OutOfMemory>
    requires { IsNarrow left.now }
    ensures { OnOk result (page.new ≡ after page.old
        (each_gives at.now.spec.now.sig at.now.steps left.now right.now)) }
{
    match mark_in(at.alloc, left, right)? {
        Some(path) => draw_marked(page, at, Some(path.as_slice()), left, right),
        None => draw_marked(page, at, None, left, right),
    }
}

/// Draws what each side gives, with the place at the path marked in both.
fn draw_marked(
    page: &mut Page,
    at: &Setting<'_>,
    mark: Option<&[u8]>,
    left: &Eval,
    right: &Eval,
) -> Result<(), OutOfMemory>
    ensures { OnOk result (page.new ≡ after page.old (each_marked at.now.spec.now.sig at.now.steps
        (option_copied mark.entry) left.now right.now)) }
{
    page.text(Style::Plain, b"  left gives ")?;
    draw_given(page, at, mark, left)?;
    page.text(Style::Plain, b", right gives ")?;
    draw_given(page, at, mark, right)
}

/// The path to the first difference, if both sides give values.
fn mark_in(alloc: Global, left: &Eval, right: &Eval) -> Result<Option<Vec<u8>>, OutOfMemory>
    requires { IsNarrow left.now }
    ensures { IfOk result (λ path. MatchOption path (marked_in left.now right.now ≡ None)
        (λ p. marked_in left.now right.now ≡ Some p.items)) }
{
    match (left, right) {
        (Eval::Value { value, .. }, Eval::Value { value: other, .. }) => {
            difference(alloc, value, other)
        }
        _ => Ok(None),
    }
}

/// Draws what a side gives, with the place at the path marked.
fn draw_given(
    page: &mut Page,
    at: &Setting<'_>,
    mark: Option<&[u8]>,
    found: &Eval,
) -> Result<(), OutOfMemory>
    ensures { OnOk result (page.new ≡ after page.old
        (side_gives at.now.spec.now.sig at.now.steps (option_copied mark.entry) found.now)) }
{
    match found {
        Eval::Value { value, steps } => {
            draw_value(at.alloc, page, &at.spec.sig, mark, value)?;
            page.text(Style::Plain, b" (")?;
            draw_uses(page, *steps)?;
            page.text(Style::Plain, b")")
        }
        Eval::Large { steps } => {
            page.text(Style::Plain, b"a value of more than 10,000 symbols (")?;
            draw_uses(page, *steps)?;
            page.text(Style::Plain, b")")
        }
        Eval::Spent => {
            page.text(Style::Plain, b"no value within ")?;
            draw_uses(page, at.steps)
        }
    }
}
