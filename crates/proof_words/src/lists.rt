//! What comes between the items of a list.

ghost use Rattle.std.specs.Prelude.{◌≡◌, OnOk};
ghost use Rattle.page_core.specs.Pages.{after};
ghost use Rattle.proof_words.specs.ListEvents.{separation};

use page_core::{Page, Style};
use term_core::OutOfMemory;

/// Draws what comes before the item at a place of a list: nothing before the first one.
pub fn draw_separation(page: &mut Page, separator: &[u8], place: usize) -> Result<(), OutOfMemory>
    ensures { OnOk result (page.new ≡ after page.old (separation separator.now place)) }
{
    if place == 0 {
        return Ok(());
    }
    page.text(Style::Plain, separator)
}
