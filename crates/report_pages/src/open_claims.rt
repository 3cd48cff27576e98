//! How far an open goal was tried.

ghost use Rattle.std.specs.Prelude.{◌≡◌, OnOk};
ghost use Rattle.page_core.specs.Pages.{after};
ghost use Rattle.report_pages.specs.OpenClaims.{open_events};

use clause_core::Budget;
use page_core::{Page, Style};
use term_core::OutOfMemory;

/// Draws what was tried of a goal that is left open.
pub(crate) fn draw_open(page: &mut Page, budget: &Budget) -> Result<(), OutOfMemory>
    ensures { OnOk result (page.new ≡ after page.old (open_events budget.now)) }
{
    page.text(Style::Plain, b"open: ")?;
    page.number(budget.tried as usize)?;
    page.text(Style::Plain, b" substitutions up to depth ")?;
    page.number(budget.depth as usize)?;
    page.text(Style::Plain, b" were tried, ")?;
    page.number(budget.skipped as usize)?;
    page.text(
        Style::Plain,
        b" of them without a verdict; no plain proof up to length ",
    )?;
    page.number(budget.plain as usize)?;
    page.text(Style::Plain, b", no routine proof up to ")?;
    page.number(budget.nodes as usize)?;
    page.text(Style::Plain, b" nodes")
}
