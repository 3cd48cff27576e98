//! `open_page`: the sections as a text.

ghost use Rattle.std.specs.Prelude.{◌≡◌, IfOk, option_map};
ghost use Rattle.std.specs.List.{list_any};
ghost use Rattle.spec_order.specs.Orders.{order_of};
ghost use Rattle.report_pages.specs.Claims.{HaveGoals};
ghost use Rattle.open_pages.specs.OpenPages.{IsOpenPage, closed_line as closed_line_of};
ghost use Rattle.open_pages.specs.OpenPages.{text_or_line as text_or_line_of};
ghost use Rattle.open_pages.specs.Sections.{is_shown as is_claim_shown};

use crate::sections::{draw_sections, is_shown};
use clause_core::Claim;
use command_line::SearchBounds;
use page_core::{Format, Page};
use report_pages::draw_title;
use spec_admit::Admitted;
use spec_order::AnyOrder;
use std::alloc::Global;
use term_core::OutOfMemory;

/// The text on the goals that these claims leave open, or on the one of a name. Counterexamples are
/// looked for within the tries and steps of `search`.
pub fn open_page(
    alloc: Global,
    admitted: &Admitted<AnyOrder>,
    title: &str,
    asked: Option<&str>,
    search: SearchBounds,
    claims: &[Claim],
) -> Result<Vec<u8>, OutOfMemory>
    requires ordered { admitted.now.order ≡ order_of admitted.now.spec }
    requires goals { HaveGoals admitted.now.spec claims.now }
    ensures { IfOk result (λ text. IsOpenPage admitted.now.spec title.now
        (option_map (λ name. name.now) asked.entry) search claims.now text.items) }
{
    let mut page = Page::new(alloc, Format::Text);
    draw_title(&mut page, title)?;
    draw_sections(alloc, admitted, asked, search, claims, &mut page)?;
    text_or_line(alloc, asked, some_shown(asked, claims), page.into_bytes())
}

/// The text if something is shown, and else the line that nothing is.
fn text_or_line(
    alloc: Global,
    asked: Option<&str>,
    shown: bool,
    text: Vec<u8>,
) -> Result<Vec<u8>, OutOfMemory>
    ensures { IfOk result (λ made. made.items ≡ text_or_line_of
        (option_map (λ name. name.now) asked.entry) shown text.items) }
{
    if shown {
        Ok(text)
    } else {
        Ok(Vec::from_slice(alloc, closed_line(asked))?)
    }
}

/// Whether some claim leaves a goal open that is asked for.
fn some_shown(asked: Option<&str>, claims: &[Claim]) -> bool
    ensures { result ≡ list_any (is_claim_shown (option_map (λ name. name.now) asked.entry))
        claims.now }
{
    claims.iter().any(|claim| is_shown(asked, claim))
}

/// The line if no goal that is asked for is open.
fn closed_line(asked: Option<&str>) -> &'static [u8]
    ensures { result.now ≡ closed_line_of (option_map (λ name. name.now) asked.entry) }
{
    match asked {
        None => b"every goal is proved or refuted\n",
        Some(_) => b"the goal is proved or refuted\n",
    }
}
