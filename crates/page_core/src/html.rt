//! The tags of parts, and links.

ghost use Rattle.std.specs.Prelude.{◌≡◌, ◌++◌, OnOk, codes};
ghost use Rattle.page_core.specs.Html.{anchor_id, closing, link_html, opening};

use crate::escaping::append_escaped;
use crate::head::head;
use crate::parts::{Anchor, Part};
use spec_core::append_decimal;
use term_core::OutOfMemory;

/// Appends what is written where a part begins.
pub(crate) fn append_opening(part: Part, out: &mut Vec<u8>) -> Result<(), OutOfMemory>
    ensures { OnOk result (out.new.items ≡ out.old.items ++ opening part) }
{
    match part {
        Part::Document => append(head(), out),
        Part::Heading => append(b"<h1>", out),
        Part::Goals => append(b"<ul class=\"goals\">", out),
        Part::GoalLine => append(b"<li>", out),
        Part::Goal(goal) => append_with_id(b"<section id=\"", Anchor::Goal(goal), out),
        Part::GoalHeading => append(b"<h2>", out),
        Part::Note => append(b"<p>", out),
        Part::Node { goal, node } => {
            append_with_id(
                b"<div class=\"node\" id=\"",
                Anchor::Node { goal, node },
                out,
            )
        }
        Part::Step => append(b"<p class=\"step\">", out),
        Part::Case => append(b"<details open>", out),
        Part::CaseHeading => append(b"<summary>", out),
        Part::Value => append(b"<p class=\"value\">", out),
    }
}

/// What is written where a part ends.
pub(crate) fn closing_of(part: Part) -> &'static [u8]
    ensures { result.now ≡ closing part }
{
    match part {
        Part::Document => b"</body>\n</html>\n",
        Part::Heading => b"</h1>\n",
        Part::Goals => b"</ul>\n",
        Part::GoalLine => b"</li>\n",
        Part::Goal(_) => b"</section>\n",
        Part::GoalHeading => b"</h2>\n",
        Part::Note => b"</p>\n",
        Part::Node { .. } => b"</div>\n",
        Part::Step => b"</p>\n",
        Part::Case => b"</details>\n",
        Part::CaseHeading => b"</summary>\n",
        Part::Value => b"</p>\n",
    }
}

/// Appends a text that links to an anchor of the page.
pub(crate) fn append_link(to: Anchor, text: &[u8], out: &mut Vec<u8>) -> Result<(), OutOfMemory>
    ensures { OnOk result (out.new.items ≡ out.old.items ++ link_html to text.now) }
{
    append_with_id(b"<a href=\"#", to, out)?;
    append_escaped(text, out)?;
    append(b"</a>", out)
}

/// Appends the beginning of a tag up to a quotation mark, an id and the end of the tag.
fn append_with_id(begin: &[u8], id: Anchor, out: &mut Vec<u8>) -> Result<(), OutOfMemory>
    ensures { OnOk result
        (out.new.items ≡ out.old.items ++ (begin.now ++ anchor_id id ++ codes "\">")) }
{
    append(begin, out)?;
    append_id(id, out)?;
    append(b"\">", out)
}

fn append_id(id: Anchor, out: &mut Vec<u8>) -> Result<(), OutOfMemory>
    ensures { OnOk result (out.new.items ≡ out.old.items ++ anchor_id id) }
{
    append(b"g", out)?;
    match id {
        Anchor::Goal(goal) => append_decimal(goal as usize, out),
        Anchor::Node { goal, node } => {
            append_decimal(goal as usize, out)?;
            append(b"n", out)?;
            append_decimal(node as usize, out)
        }
    }
}

fn append(bytes: &[u8], out: &mut Vec<u8>) -> Result<(), OutOfMemory>
    ensures { OnOk result (out.new.items ≡ out.old.items ++ bytes.now) }
{
    out.extend_from_slice(bytes)?;
    Ok(())
}
