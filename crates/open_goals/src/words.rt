//! What a node, what is near there and a start are drawn by.

ghost use Rattle.std.specs.Prelude.{◌≡◌, OnOk, slice_get};
ghost use Rattle.page_core.specs.Pages.{after};
ghost use Rattle.open_goals.specs.Words.{cause_events, equation_events as events_of_equation};
ghost use Rattle.open_goals.specs.Words.{first_events, fit_events, gap_events, lacks_events};
ghost use Rattle.open_goals.specs.Words.{lemma_events, name_of, says_events};
ghost use Rattle.open_goals.specs.Words.{premise_events, source_events, split_events};
ghost use Rattle.open_goals.specs.Words.{term_events as events_of_term};

use crate::gaps::Gap;
use crate::near::Source;
use page_core::{Page, Style};
use proof_search::Cause;
use proof_words::{Naming, draw_side, draw_variable};
use spec_core::{Equation, Goal};
use term_core::{OutOfMemory, Term, VarId};

/// Draws where an equation comes from.
pub(crate) fn draw_source(
    page: &mut Page,
    goals: &[Goal],
    source: Source,
) -> Result<(), OutOfMemory>
    ensures { OnOk result (page.new ≡ after page.old (source_events goals.now source)) }
{
    match source {
        Source::Hypothesis => page.text(Style::Plain, b"the goal as hypothesis"),
        Source::Lemma(number) => draw_lemma(page, goals, number),
    }
}

/// Draws the name of a lemma.
fn draw_lemma(page: &mut Page, goals: &[Goal], number: u32) -> Result<(), OutOfMemory>
    ensures { OnOk result (page.new ≡ after page.old (lemma_events goals.now number)) }
{
    page.text(Style::Plain, b"lemma ")?;
    page.text(Style::Plain, goal_name(goals, number))
}

/// The name of the goal with this number, and nothing for a number that no goal has.
fn goal_name(goals: &[Goal], number: u32) -> &[u8]
    ensures { result.now ≡ name_of (slice_get goals.now number) }
{
    match goals.get(number as usize) {
        Some(goal) => goal.name.as_bytes(),
        None => b"",
    }
}

fn draw_term(page: &mut Page, naming: &Naming<'_>, term: &Term) -> Result<(), OutOfMemory>
    ensures { OnOk result (page.new ≡ after page.old
        (events_of_term naming.now.sig.now naming.now.names.now term.now)) }
{
    draw_side(page, naming, None, term)
}

fn draw_equation(
    page: &mut Page,
    naming: &Naming<'_>,
    equation: &Equation,
) -> Result<(), OutOfMemory>
    ensures { OnOk result (page.new ≡ after page.old
        (events_of_equation naming.now.sig.now naming.now.names.now equation.now)) }
{
    draw_term(page, naming, &equation.left)?;
    page.text(Style::Plain, b" = ")?;
    draw_term(page, naming, &equation.right)
}

/// Draws what an equation lacks.
pub(crate) fn draw_gap(page: &mut Page, naming: &Naming<'_>, gap: &Gap) -> Result<(), OutOfMemory>
    ensures { OnOk result (page.new ≡ after page.old
        (gap_events naming.now.sig.now naming.now.names.now gap.now)) }
{
    match gap {
        Gap::Says(premise) => draw_says(page, naming, premise),
        Gap::Lacks { term, premise } => draw_lacks(page, naming, term, premise),
        Gap::NotBelow { term, other } => {
            let behind = b" isn't below it in the order";
            draw_sides(page, naming, term, b", but ", other, behind)
        }
        Gap::TooLarge { term, other } => {
            let behind = b", is too large beside this clause";
            draw_sides(page, naming, term, b", but its other side, ", other, behind)
        }
    }
}

fn draw_says(page: &mut Page, naming: &Naming<'_>, premise: &Equation) -> Result<(), OutOfMemory>
    ensures { OnOk result (page.new ≡ after page.old
        (says_events naming.now.sig.now naming.now.names.now premise.now)) }
{
    page.text(Style::Plain, b" says the conclusion")?;
    draw_premise(page, naming, premise)
}

fn draw_lacks(
    page: &mut Page,
    naming: &Naming<'_>,
    term: &Term,
    premise: &Equation,
) -> Result<(), OutOfMemory>
    ensures { OnOk result (page.new ≡ after page.old
        (lacks_events naming.now.sig.now naming.now.names.now term.now premise.now)) }
{
    page.text(Style::Plain, b" fits at ")?;
    draw_term(page, naming, term)?;
    draw_premise(page, naming, premise)
}

/// Draws that a premise is missing.
fn draw_premise(page: &mut Page, naming: &Naming<'_>, premise: &Equation) -> Result<(), OutOfMemory>
    ensures { OnOk result (page.new ≡ after page.old
        (premise_events naming.now.sig.now naming.now.names.now premise.now)) }
{
    page.text(Style::Plain, b", but its premise ")?;
    draw_equation(page, naming, premise)?;
    page.text(Style::Plain, b" isn't among the premises here")
}

/// Draws where a side fits, and the other side, with texts between and behind.
fn draw_sides(
    page: &mut Page,
    naming: &Naming<'_>,
    term: &Term,
    between: &[u8],
    other: &Term,
    behind: &[u8],
) -> Result<(), OutOfMemory>
    ensures { OnOk result (page.new ≡ after page.old
        (fit_events naming.now.sig.now naming.now.names.now term.now between.now other.now
        behind.now)) }
{
    page.text(Style::Plain, b" fits at ")?;
    draw_term(page, naming, term)?;
    page.text(Style::Plain, between)?;
    draw_term(page, naming, other)?;
    page.text(Style::Plain, behind)
}

/// Draws why the strategy stops, where this variable is asked for.
pub(crate) fn draw_cause(
    page: &mut Page,
    naming: &Naming<'_>,
    cause: Cause,
    next: Option<VarId>,
) -> Result<(), OutOfMemory>
    ensures { OnOk result (page.new ≡ after page.old
        (cause_events naming.now.sig.now naming.now.names.now cause next)) }
{
    match (cause, next) {
        (Cause::NoStep, _) => page.text(Style::Plain, b"no step is possible"),
        (Cause::Covers, None) => {
            page.text(Style::Plain, b"the next step would be a further split")
        }
        (Cause::Covers, Some(variable)) => {
            page.text(Style::Plain, b"the next step would be a further split, of ")?;
            draw_variable(page, naming, Style::Plain, variable.0 as usize)
        }
    }
}

/// Draws which variable is split first.
pub(crate) fn draw_split(
    page: &mut Page,
    naming: &Naming<'_>,
    split: Option<VarId>,
) -> Result<(), OutOfMemory>
    ensures { OnOk result (page.new ≡ after page.old
        (split_events naming.now.sig.now naming.now.names.now split)) }
{
    match split {
        None => page.text(Style::Plain, b"no split first: "),
        Some(variable) => draw_first(page, naming, variable),
    }
}

/// Draws that the variable is split first.
fn draw_first(page: &mut Page, naming: &Naming<'_>, variable: VarId) -> Result<(), OutOfMemory>
    ensures { OnOk result (page.new ≡ after page.old
        (first_events naming.now.sig.now naming.now.names.now variable)) }
{
    page.text(Style::Plain, b"split ")?;
    draw_variable(page, naming, Style::Plain, variable.0 as usize)?;
    page.text(Style::Plain, b" first: ")
}
