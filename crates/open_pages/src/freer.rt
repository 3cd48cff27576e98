//! `draw_freer`: that a freer search finds a proof.

ghost use Rattle.std.specs.Prelude.{◌≡◌, ◌<◌, OnOk, Some, length, slice_get};
ghost use Rattle.spec_core.specs.declared.records.Goal.{Goal as GoalOf};
ghost use Rattle.page_core.specs.Pages.{after};
ghost use Rattle.report_pages.specs.Lists.{Draws};
ghost use Rattle.open_pages.specs.Freer.{IsFreerShown, freer_events, freer_note};

use freer_search::{FREER_GOAL, freer};
use page_core::{Page, Part, Style};
use proof_search::Guided;
use spec_admit::Admitted;
use std::alloc::Global;
use term_core::OutOfMemory;
use term_order::TermOrder;

/// Draws a note if a freer search finds a proof of the goal of this number over these lemmas.
pub(crate) fn draw_freer<O: TermOrder>(
    alloc: Global,
    admitted: &Admitted<O>,
    number: u32,
    lemmas: &[u32],
    page: &mut Page,
) -> Result<(), OutOfMemory>
    requires { number < length admitted.now.spec.goals }
    ensures { OnOk result ((goal : GoalOf) →
        slice_get admitted.now.spec.goals number ≡ Some goal →
        Draws page.old page.new (IsFreerShown (O.above admitted.now.order) admitted.now.spec
        lemmas.now goal)) }
{
    let found = freer(alloc, admitted, number, lemmas, FREER_GOAL)?;
    draw_found(&found, page)
}

fn draw_found(found: &Guided, page: &mut Page) -> Result<(), OutOfMemory>
    ensures { OnOk result (page.new ≡ after page.old (freer_events found.now)) }
{
    match found {
        Guided::Block(block) => draw_nodes(page, block.steps.len()),
        Guided::Unfinished => Ok(()),
    }
}

fn draw_nodes(page: &mut Page, nodes: usize) -> Result<(), OutOfMemory>
    ensures { OnOk result (page.new ≡ after page.old (freer_note nodes)) }
{
    page.begin(Part::Note)?;
    page.text(Style::Plain, b"a freer search finds a proof (nodes: ")?;
    page.number(nodes)?;
    page.text(
        Style::Plain,
        b"); spike-explore report --no-lemmas writes it",
    )?;
    page.end(Part::Note)
}
