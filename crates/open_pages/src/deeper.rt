//! `draw_deeper`: the counterexample that a deeper search finds.

ghost use Rattle.std.specs.Prelude.{◌≡◌, ℕ, OnOk, Some, slice_get};
ghost use Rattle.page_core.specs.Pages.{after};
ghost use Rattle.report_pages.specs.Lists.{Draws};
ghost use Rattle.open_pages.specs.Deeper.{IsDeeperShown, deeper_events, depth_note};

use command_line::SearchBounds;
use page_core::{Page, Part, Style};
use report_pages::draw_values;
use search_claims::{Deepened, deepen};
use spec_admit::Admitted;
use spec_core::{Goal, Signature};
use std::alloc::Global;
use term_core::OutOfMemory;
use term_order::TermOrder;

/// Draws the values that the first search finds that refutes the goal, if one does.
pub(crate) fn draw_deeper<O: TermOrder>(
    alloc: Global,
    admitted: &Admitted<O>,
    goal: &Goal,
    search: SearchBounds,
    page: &mut Page,
) -> Result<(), OutOfMemory>
    requires { (k : ℕ) × (slice_get admitted.now.spec.goals k ≡ Some goal.now) }
    ensures { OnOk result (Draws page.old page.new
        (IsDeeperShown search admitted.now.spec goal.now)) }
{
    let spec = &admitted.spec;
    let found = deepen(alloc, spec, goal, search)?;
    draw_found(alloc, &spec.sig, &found, page)
}

fn draw_found(
    alloc: Global,
    sig: &Signature,
    found: &Option<Deepened>,
    page: &mut Page,
) -> Result<(), OutOfMemory>
    ensures { OnOk result (page.new ≡ after page.old (deeper_events sig.now found.now)) }
{
    match found {
        Some(found) => draw_counterexample(alloc, sig, found, page),
        None => Ok(()),
    }
}

fn draw_counterexample(
    alloc: Global,
    sig: &Signature,
    found: &Deepened,
    page: &mut Page,
) -> Result<(), OutOfMemory>
    ensures { OnOk result (page.new ≡ after page.old (deeper_events sig.now (Some found.now))) }
{
    draw_depth(page, found.depth)?;
    draw_values(alloc, page, sig, found.values.as_slice())
}

fn draw_depth(page: &mut Page, depth: u32) -> Result<(), OutOfMemory>
    ensures { OnOk result (page.new ≡ after page.old (depth_note depth)) }
{
    page.begin(Part::Note)?;
    page.text(Style::Plain, b"a search to depth ")?;
    page.number(depth as usize)?;
    page.text(Style::Plain, b" finds a counterexample")?;
    page.end(Part::Note)
}
