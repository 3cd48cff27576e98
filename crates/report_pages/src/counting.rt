//! Numbers with their words.

ghost use Rattle.std.specs.Prelude.{◌≡◌, OnOk};
ghost use Rattle.page_core.specs.Pages.{after};
ghost use Rattle.report_pages.specs.Claims.{node_word as word_for_nodes, nodes_events};
ghost use Rattle.report_pages.specs.Values.{use_word as word_for_uses, uses_events};

use page_core::{Page, Style};
use term_core::OutOfMemory;

/// Draws a number of rule uses.
pub(crate) fn draw_uses(page: &mut Page, count: u32) -> Result<(), OutOfMemory>
    ensures { OnOk result (page.new ≡ after page.old (uses_events count)) }
{
    page.number(count as usize)?;
    page.text(Style::Plain, use_word(count))
}

fn use_word(count: u32) -> &'static [u8]
    ensures { result.now ≡ word_for_uses count }
{
    if count == 1 {
        b" rule use"
    } else {
        b" rule uses"
    }
}

/// Draws a number of nodes.
pub(crate) fn draw_nodes(page: &mut Page, count: usize) -> Result<(), OutOfMemory>
    ensures { OnOk result (page.new ≡ after page.old (nodes_events count)) }
{
    page.number(count)?;
    page.text(Style::Plain, node_word(count))
}

fn node_word(count: usize) -> &'static [u8]
    ensures { result.now ≡ word_for_nodes count }
{
    if count == 1 { b" node" } else { b" nodes" }
}
